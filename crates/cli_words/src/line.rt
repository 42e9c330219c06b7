//! What the words of a command line ask.

ghost use Rattle.std.specs.Prelude.{◌≡◌, [], IfErr, IfOk, IfSome, Some, codes, false, map, option_and_then};
ghost use Rattle.std.specs.Prelude.{option_map, string_bytes, unwrap_or};
ghost use Rattle.std.specs.Str.{bytes_eq};
ghost use Rattle.clap.specs.Words.{HasKind, Kinds, fault_of, first_of, found_of, rows_of, subcommand_rows_of};
ghost use Rattle.cli_words.specs.ArgFault.{IsRefusedBy};
ghost use Rattle.cli_words.specs.Line.{adopt_in, asked, asked_in, check_in, count_in, count_of, days_in, describe_in};
ghost use Rattle.cli_words.specs.Line.{desk_app, import_in, is_set, line_value, moment_in, overrides_in, rebuild_in};
ghost use Rattle.cli_words.specs.Line.{replay_in, report_in, serve_in, straighten_in, tick_in, values_in, why_in};

use crate::ArgFault;
use crate::commands::desk_command;
use clap::ArgMatches;
use clap::error::ErrorKind;
use std::alloc::{AllocError, Global};

/// What the words of a command line ask of the program.
#[derive(Drop)]
pub enum Line<'a> {
    /// `check FILE [DB] [--explain] [--record PATH]`: reads the building of the file, and prints what it has, or what
    /// of the tables in a database does not suit it, or whether they are those of a record. `check --hints FILE [CSV]`:
    /// prints what of the building, and of a holiday list, is probably not meant.
    Check {
        /// The path of the building file.
        file: &'a str,
        /// The path of the database, if it is to be looked over; with hints that of the holiday list.
        database: Option<&'a str>,
        /// Whether a fault of the file is explained.
        explain: bool,
        /// Whether it is for hints.
        hints: bool,
        /// The path of the record, if the tables are to be compared with it.
        record: Option<&'a str>,
    },
    /// `adopt FILE DB NEW [--rename OLD=NEW].. [--dry-run]`: makes a database that suits the building of the file, from
    /// the tables of another one.
    Adopt {
        /// The path of the building file.
        file: &'a str,
        /// The path of the database, which is only read.
        database: &'a str,
        /// The path of the one that is made.
        made: &'a str,
        /// The renamings, as they were given.
        renamings: Vec<&'a str>,
        /// Whether nothing is made.
        dry_run: bool,
    },
    /// `rebuild FILE RECORD DB`: makes a database with what the whole lines of a record leave in the building of the
    /// file.
    Rebuild {
        /// The path of the building file.
        file: &'a str,
        /// The path of the record, which is only read.
        record: &'a str,
        /// The path of the database that is made.
        database: &'a str,
    },
    /// `describe FILE`: prints the building of the file as one JSON object.
    Describe {
        /// The path of the building file.
        file: &'a str,
    },
    /// `replay FILE DELIVERIES [--until AT]`: runs the deliveries over the building of the file, in memory.
    Replay {
        /// The path of the building file.
        file: &'a str,
        /// The path of the list of deliveries.
        deliveries: &'a str,
        /// The moment before whose first later tick the list ends, as it was given.
        until: Option<&'a str>,
    },
    /// `why FILE DELIVERIES POINT [--until AT]`: prints what the deliveries leave in the places of a point, and what
    /// put it there.
    Why {
        /// The path of the building file.
        file: &'a str,
        /// The path of the list of deliveries.
        deliveries: &'a str,
        /// The name of the point.
        point: &'a str,
        /// As that of `replay`.
        until: Option<&'a str>,
    },
    /// `overrides FILE DELIVERIES [--from AT] [--until AT]`: prints when the deliveries gave a point of the building the
    /// value of a panel's command.
    Overrides {
        /// The path of the building file.
        file: &'a str,
        /// The path of the list of deliveries.
        deliveries: &'a str,
        /// The moment after which what is printed ended or still stands, as it was given.
        from: Option<&'a str>,
        /// As that of `replay`.
        until: Option<&'a str>,
    },
    /// `straighten FILE DELIVERIES`: prints the straight list of the deliveries over the building of the file.
    Straighten {
        /// The path of the building file.
        file: &'a str,
        /// The path of the list of deliveries.
        deliveries: &'a str,
    },
    /// `import FILE DB CSV [--dry-run] [--record PATH]`: delivers the import of a holiday list to the desk of a database.
    Import {
        /// The path of the building file.
        file: &'a str,
        /// The path of the database.
        database: &'a str,
        /// The path of the holiday list.
        holidays: &'a str,
        /// Whether nothing is changed.
        dry_run: bool,
        /// The path of the record, if one is kept.
        record: Option<&'a str>,
    },
    /// `tick FILE DB AT [--record PATH]`: delivers a tick to the desk of a database.
    Tick {
        /// The path of the building file.
        file: &'a str,
        /// The path of the database.
        database: &'a str,
        /// The moment, in hundredths of a second since 1970.
        at: i64,
        /// The path of the record, if one is kept.
        record: Option<&'a str>,
    },
    /// `report FILE DB DATE`: prints a day of the desk of a database.
    Report {
        /// The path of the building file.
        file: &'a str,
        /// The path of the database.
        database: &'a str,
        /// The day, as `YYYY-MM-DD`.
        date: &'a str,
    },
    /// `days FILE [DB] FROM TO`: prints the days of a range on which an exception of a schedule speaks.
    Days {
        /// The path of the building file.
        file: &'a str,
        /// The path of the database whose imported entries count, if there is one.
        database: Option<&'a str>,
        /// The first day, as `YYYY-MM-DD`.
        from: &'a str,
        /// The last day, as `YYYY-MM-DD`.
        to: &'a str,
    },
    /// `serve FILE DB ADDRESS [--requests N] [--clock] [--record PATH]`: answers requests to the desk of a database.
    Serve {
        /// The path of the building file.
        file: &'a str,
        /// The path of the database.
        database: &'a str,
        /// The address to listen on, an IP address or a host's name, and a port.
        address: &'a str,
        /// After how many connections it ends, from 1 to 1,000,000; without, it goes on until it is ended.
        requests: Option<u64>,
        /// Whether a tick of the machine's clock comes before each request.
        clock: bool,
        /// The path of the record, if one is kept.
        record: Option<&'a str>,
    },
}

impl<'a> Line<'a> {
    /// Reads the program's words, its name first.
    ///
    /// A request for help is a fault too, whose text is the help, and so is one for the version.
    pub fn of(alloc: Global, words: &'a [String]) -> Result<Line<'a>, ArgFault>
        ensures takes { IfOk result (λ line. fault_of desk_app (map string_bytes words.entry.now) ≡ []) }
        ensures asks { IfOk result (λ line.
            asked (map string_bytes words.entry.now) ≡ Some (line_value line)) }
        ensures refuses { IfErr result
            (IsRefusedBy (fault_of desk_app (map string_bytes words.entry.now))) }
    {
        let desk = desk_command(alloc)?;
        match desk.try_get_matches_from(words) {
            Ok(matches) => line_in(alloc, &matches).ok_or(ArgFault::NoMemory),
            Err(error) => Err(fault_in(error)),
        }
    }
}

/// What the subcommand that was met asks, or `None` where a value is missing or memory was refused.
fn line_in<'a>(alloc: Global, matches: &ArgMatches<'a>) -> Option<Line<'a>>
    ensures { IfSome result (λ line. option_and_then asked_in (subcommand_rows_of matches.now) ≡ Some (line_value line)) }
{
    let (name, inner) = matches.subcommand()?;
    match name {
        "adopt" => adopt_line(alloc, inner),
        _ => line_without_list(name, inner),
    }
}

/// What a subcommand asks whose arguments have one value each, or `None` where a value is missing.
fn line_without_list<'a>(name: &str, inner: &ArgMatches<'a>) -> Option<Line<'a>>
    ensures { bytes_eq name.now (codes "adopt") ≡ false
        → option_map line_value result ≡ asked_in (name.now, rows_of (found_of inner.now)) }
{
    match name {
        "rebuild" => rebuild_line(inner),
        "days" => days_line(inner),
        "check" => check_line(inner),
        "describe" => describe_line(inner),
        "replay" => replay_line(inner),
        "why" => why_line(inner),
        "overrides" => overrides_line(inner),
        "straighten" => straighten_line(inner),
        "import" => import_line(inner),
        "tick" => tick_line(inner),
        "report" => report_line(inner),
        "serve" => serve_line(inner),
        _ => None,
    }
}

/// What the arguments of `adopt` ask; nothing too where memory was refused.
fn adopt_line<'a>(alloc: Global, matches: &ArgMatches<'a>) -> Option<Line<'a>>
    ensures { IfSome result (λ line. adopt_in (rows_of (found_of matches.now)) ≡ Some (line_value line)) }
{
    if let Some(file) = text_at(matches, "file")
        && let Some(database) = text_at(matches, "database")
        && let Some(made) = text_at(matches, "made")
    {
        let renamings = texts_at(alloc, matches, "rename").ok()?;
        let dry_run = is_set(matches, "dry-run");
        Some(Line::Adopt {
            file,
            database,
            made,
            renamings,
            dry_run,
        })
    } else {
        None
    }
}

/// The values of an argument.
fn texts_at<'a>(
    alloc: Global,
    matches: &ArgMatches<'a>,
    id: &str,
) -> Result<Vec<&'a str>, AllocError>
    ensures { IfOk result (λ texts. map (λ s. s.now) texts.items ≡ values_in id.now (rows_of (found_of matches.now))) }
{
    copied(alloc, matches.get_strs(id))
}

/// The texts of a slice, if there is one.
fn copied<'a>(alloc: Global, values: Option<&[&'a str]>) -> Result<Vec<&'a str>, AllocError>
    ensures { IfOk result (λ texts. map (λ s. s.now) texts.items
        ≡ unwrap_or (option_map (λ them. map (λ s. s.now) them.now) values.entry) []) }
{
    let mut texts = Vec::new(alloc);
    if let Some(values) = values {
        texts.extend_from_slice(values)?;
    }
    Ok(texts)
}

/// What the arguments of `rebuild` ask.
fn rebuild_line<'a>(matches: &ArgMatches<'a>) -> Option<Line<'a>>
    ensures { option_map line_value result ≡ rebuild_in (rows_of (found_of matches.now)) }
{
    if let Some(file) = text_at(matches, "file")
        && let Some(record) = text_at(matches, "record")
        && let Some(database) = text_at(matches, "database")
    {
        Some(Line::Rebuild {
            file,
            record,
            database,
        })
    } else {
        None
    }
}

/// What the arguments of `days` ask.
fn days_line<'a>(matches: &ArgMatches<'a>) -> Option<Line<'a>>
    ensures { option_map line_value result ≡ days_in (rows_of (found_of matches.now)) }
{
    let file = text_at(matches, "file")?;
    let first = text_at(matches, "first")?;
    let second = text_at(matches, "second")?;
    let (database, from, to) = match text_at(matches, "third") {
        Some(third) => (Some(first), second, third),
        None => (None, first, second),
    };
    Some(Line::Days {
        file,
        database,
        from,
        to,
    })
}

/// What the arguments of `check` ask.
fn check_line<'a>(matches: &ArgMatches<'a>) -> Option<Line<'a>>
    ensures { option_map line_value result ≡ check_in (rows_of (found_of matches.now)) }
{
    let file = text_at(matches, "file")?;
    let database = text_at(matches, "database");
    let explain = is_set(matches, "explain");
    let hints = is_set(matches, "hints");
    let record = text_at(matches, "record");
    Some(Line::Check {
        file,
        database,
        explain,
        hints,
        record,
    })
}

/// What the arguments of `describe` ask.
fn describe_line<'a>(matches: &ArgMatches<'a>) -> Option<Line<'a>>
    ensures { option_map line_value result ≡ describe_in (rows_of (found_of matches.now)) }
{
    let file = text_at(matches, "file")?;
    Some(Line::Describe { file })
}

/// What the arguments of `replay` ask.
fn replay_line<'a>(matches: &ArgMatches<'a>) -> Option<Line<'a>>
    ensures { option_map line_value result ≡ replay_in (rows_of (found_of matches.now)) }
{
    if let Some(file) = text_at(matches, "file")
        && let Some(deliveries) = text_at(matches, "deliveries")
    {
        let until = text_at(matches, "until");
        Some(Line::Replay {
            file,
            deliveries,
            until,
        })
    } else {
        None
    }
}

/// What the arguments of `why` ask.
fn why_line<'a>(matches: &ArgMatches<'a>) -> Option<Line<'a>>
    ensures { option_map line_value result ≡ why_in (rows_of (found_of matches.now)) }
{
    if let Some(file) = text_at(matches, "file")
        && let Some(deliveries) = text_at(matches, "deliveries")
        && let Some(point) = text_at(matches, "point")
    {
        let until = text_at(matches, "until");
        Some(Line::Why {
            file,
            deliveries,
            point,
            until,
        })
    } else {
        None
    }
}

/// What the arguments of `overrides` ask.
fn overrides_line<'a>(matches: &ArgMatches<'a>) -> Option<Line<'a>>
    ensures { option_map line_value result ≡ overrides_in (rows_of (found_of matches.now)) }
{
    if let Some(file) = text_at(matches, "file")
        && let Some(deliveries) = text_at(matches, "deliveries")
    {
        let from = text_at(matches, "from");
        let until = text_at(matches, "until");
        Some(Line::Overrides {
            file,
            deliveries,
            from,
            until,
        })
    } else {
        None
    }
}

/// What the arguments of `straighten` ask.
fn straighten_line<'a>(matches: &ArgMatches<'a>) -> Option<Line<'a>>
    ensures { option_map line_value result ≡ straighten_in (rows_of (found_of matches.now)) }
{
    if let Some(file) = text_at(matches, "file")
        && let Some(deliveries) = text_at(matches, "deliveries")
    {
        Some(Line::Straighten { file, deliveries })
    } else {
        None
    }
}

/// What the arguments of `import` ask.
fn import_line<'a>(matches: &ArgMatches<'a>) -> Option<Line<'a>>
    ensures { option_map line_value result ≡ import_in (rows_of (found_of matches.now)) }
{
    if let Some(file) = text_at(matches, "file")
        && let Some(database) = text_at(matches, "database")
        && let Some(holidays) = text_at(matches, "holidays")
    {
        let dry_run = is_set(matches, "dry-run");
        let record = text_at(matches, "record");
        Some(Line::Import {
            file,
            database,
            holidays,
            dry_run,
            record,
        })
    } else {
        None
    }
}

/// What the arguments of `tick` ask.
fn tick_line<'a>(matches: &ArgMatches<'a>) -> Option<Line<'a>>
    ensures { option_map line_value result ≡ tick_in (rows_of (found_of matches.now)) }
{
    if let Some(file) = text_at(matches, "file")
        && let Some(database) = text_at(matches, "database")
        && let Some(at) = moment_at(matches, "at")
    {
        let record = text_at(matches, "record");
        Some(Line::Tick {
            file,
            database,
            at,
            record,
        })
    } else {
        None
    }
}

/// What the arguments of `report` ask.
fn report_line<'a>(matches: &ArgMatches<'a>) -> Option<Line<'a>>
    ensures { option_map line_value result ≡ report_in (rows_of (found_of matches.now)) }
{
    if let Some(file) = text_at(matches, "file")
        && let Some(database) = text_at(matches, "database")
        && let Some(date) = text_at(matches, "date")
    {
        Some(Line::Report {
            file,
            database,
            date,
        })
    } else {
        None
    }
}

/// What the arguments of `serve` ask.
fn serve_line<'a>(matches: &ArgMatches<'a>) -> Option<Line<'a>>
    ensures { option_map line_value result ≡ serve_in (rows_of (found_of matches.now)) }
{
    if let Some(file) = text_at(matches, "file")
        && let Some(database) = text_at(matches, "database")
        && let Some(address) = text_at(matches, "address")
    {
        let requests = count_at(matches, "requests");
        let clock = is_set(matches, "clock");
        let record = text_at(matches, "record");
        Some(Line::Serve {
            file,
            database,
            address,
            requests,
            clock,
            record,
        })
    } else {
        None
    }
}

/// The value of an argument, as a count.
fn count_at(matches: &ArgMatches<'_>, id: &str) -> Option<u64>
    ensures { result ≡ option_and_then count_in (first_of id.now (rows_of (found_of matches.now))) }
{
    count_of(moment_in(text_at(matches, id)?)?)
}

/// The number that is not below 0.
fn count_of(number: i64) -> Option<u64>
    ensures { result ≡ count_of number }
{
    u64::try_from(number).ok()
}

/// Whether a flag was among the words.
fn is_set(matches: &ArgMatches<'_>, id: &str) -> bool
    ensures { result ≡ is_set (first_of id.now (rows_of (found_of matches.now))) }
{
    match text_at(matches, id) {
        Some(text) => text == "true",
        None => false,
    }
}

/// The value of an argument, as a moment.
fn moment_at(matches: &ArgMatches<'_>, id: &str) -> Option<i64>
    ensures { result ≡ option_and_then moment_in (first_of id.now (rows_of (found_of matches.now))) }
{
    moment_in(text_at(matches, id)?)
}

/// The number that a text writes.
#[tactic(auto, using(crate::proofs::MomentLemmas::moment_read))]
fn moment_in(text: &str) -> Option<i64>
    ensures { result ≡ moment_in text.now }
{
    text.parse::<i64>().ok()
}

/// The value of an argument.
fn text_at<'a>(matches: &ArgMatches<'a>, id: &str) -> Option<&'a str>
    ensures { option_map (λ s. s.now) result ≡ first_of id.now (rows_of (found_of matches.now)) }
{
    matches.get_str(id)
}

/// The fault of words that `clap` refuses.
fn fault_in(error: clap::Error) -> ArgFault
    ensures { (kinds : Kinds) → HasKind kinds error → IsRefusedBy kinds result }
{
    match error.kind() {
        ErrorKind::OutOfMemory => ArgFault::NoMemory,
        ErrorKind::DisplayVersion => ArgFault::Version,
        _ => ArgFault::Words(error),
    }
}
