//! The commands that the words are read by.

ghost use Rattle.std.specs.Prelude.{◌≡◌, false};
ghost use Rattle.clap.specs.Words.{App, rule_of, with_rule, with_subcommand};
ghost use Rattle.cli_words.specs.Line.{Makes, adopt_app, check_app, database_app, days_app, deliveries_app};
ghost use Rattle.cli_words.specs.Line.{describe_app, desk_app, file_app, import_app, overrides_app, rebuild_app};
ghost use Rattle.cli_words.specs.Line.{replay_app, report_app, serve_app, straighten_app, tick_app, why_app};

use crate::arguments::{
    KEPT, flag, from_argument, looked_over, needed, record_argument, rename_argument,
    requests_argument, until_argument,
};
use crate::version::VERSION;
use clap::{Arg, Command};
use std::alloc::{AllocError, Global};

/// The command `desk` with its subcommands.
pub(crate) fn desk_command<'a>(alloc: Global) -> Result<Command<'a>, AllocError>
    ensures { Makes desk_app result }
{
    let desk = Command::new(alloc, "desk")
        .about("The operating desk of a building: BACnet schedules and command priorities")
        .version(VERSION)
        .subcommand_required(true);
    let desk = with_subcommand(Ok(desk), check_command(alloc));
    let desk = with_subcommand(desk, describe_command(alloc));
    let desk = with_subcommand(desk, replay_command(alloc));
    let desk = with_subcommand(desk, why_command(alloc));
    let desk = with_subcommand(desk, overrides_command(alloc));
    let desk = with_subcommand(desk, straighten_command(alloc));
    let desk = with_subcommand(desk, import_command(alloc));
    let desk = with_subcommand(desk, tick_command(alloc));
    let desk = with_subcommand(desk, report_command(alloc));
    let desk = with_subcommand(desk, serve_command(alloc));
    let desk = with_subcommand(desk, adopt_command(alloc));
    let desk = with_subcommand(desk, rebuild_command(alloc));
    with_subcommand(desk, days_command(alloc))
}

/// The subcommand `adopt FILE DB NEW [--rename OLD=NEW].. [--dry-run]`.
fn adopt_command<'a>(alloc: Global) -> Result<Command<'a>, AllocError>
    ensures { Makes adopt_app result }
{
    let about =
        "Makes a database that suits a building, from the tables of another one, which stays as it is";
    let database = needed(
        alloc,
        "database",
        "DB",
        "The database of the desk, which is only read",
    );
    let made = needed(alloc, "made", "NEW", "The database that is made");
    let adopt = with_argument(file_command(alloc, "adopt", about), database);
    with_argument(
        with_argument(with_argument(adopt, made), rename_argument(alloc)),
        flag(
            alloc,
            "dry-run",
            "Prints what would be taken along, and makes nothing",
        ),
    )
}

/// The subcommand `rebuild FILE RECORD DB`.
fn rebuild_command<'a>(alloc: Global) -> Result<Command<'a>, AllocError>
    ensures { Makes rebuild_app result }
{
    let about = "Makes a database with what the deliveries of a record leave";
    let help = "The record, of which the whole lines are read";
    let record = needed(alloc, "record", "RECORD", help);
    let database = needed(alloc, "database", "DB", "The database that is made");
    with_argument(
        with_argument(file_command(alloc, "rebuild", about), record),
        database,
    )
}

/// The subcommand `days FILE [DB] FROM TO`.
fn days_command<'a>(alloc: Global) -> Result<Command<'a>, AllocError>
    ensures { Makes days_app result }
{
    let about = "Prints the days from FROM to TO on which an exception of a schedule speaks";
    let help = "The database whose imported entries count; without it the first day, as YYYY-MM-DD";
    let first = needed(alloc, "first", "DB|FROM", help);
    let second = needed(
        alloc,
        "second",
        "FROM|TO",
        "The first day; without DB the last one",
    );
    let third = Arg::new(alloc, "third")
        .value_name("TO")
        .help("The last day, where there is DB");
    let days = with_argument(file_command(alloc, "days", about), first);
    with_argument(with_argument(days, second), third)
}

/// The subcommand `check FILE [DB] [--explain] [--hints] [--record PATH]`.
fn check_command<'a>(alloc: Global) -> Result<Command<'a>, AllocError>
    ensures { Makes check_app result }
{
    let about =
        "Reads a building, and tells what it has or its first fault, or what of a database does not suit it";
    let help = "After a fault of the building, prints which item it is, and what is expected there";
    let check = with_argument(file_command(alloc, "check", about), looked_over(alloc));
    let check = with_argument(check, flag(alloc, "explain", help));
    let hints = "Prints what is allowed and probably not meant; beside FILE is then a holiday list";
    let compared = "A record, whose tables those of the database are to be";
    with_argument(
        with_argument(check, flag(alloc, "hints", hints)),
        record_argument(alloc, compared),
    )
}

/// The subcommand `describe FILE`.
fn describe_command<'a>(alloc: Global) -> Result<Command<'a>, AllocError>
    ensures { Makes describe_app result }
{
    file_command(alloc, "describe", "Prints a building as one JSON object")
}

/// The subcommand `replay FILE DELIVERIES [--until AT]`.
fn replay_command<'a>(alloc: Global) -> Result<Command<'a>, AllocError>
    ensures { Makes replay_app result }
{
    let about = "Runs deliveries in memory, and prints each reply and then each point";
    with_argument(
        deliveries_command(alloc, "replay", about),
        until_argument(alloc),
    )
}

/// The subcommand `why FILE DELIVERIES POINT [--until AT]`.
fn why_command<'a>(alloc: Global) -> Result<Command<'a>, AllocError>
    ensures { Makes why_app result }
{
    let about = "Prints what deliveries leave in the places of a point, and what put it there";
    let point = needed(alloc, "point", "POINT", "The name of the point");
    with_argument(
        with_argument(deliveries_command(alloc, "why", about), point),
        until_argument(alloc),
    )
}

/// The subcommand `overrides FILE DELIVERIES [--from AT] [--until AT]`.
fn overrides_command<'a>(alloc: Global) -> Result<Command<'a>, AllocError>
    ensures { Makes overrides_app result }
{
    let about = "Prints when panels' commands gave points their values, point by point";
    let overrides = deliveries_command(alloc, "overrides", about);
    with_argument(
        with_argument(overrides, from_argument(alloc)),
        until_argument(alloc),
    )
}

/// The subcommand `straighten FILE DELIVERIES`.
fn straighten_command<'a>(alloc: Global) -> Result<Command<'a>, AllocError>
    ensures { Makes straighten_app result }
{
    let about = "Prints the straight list of deliveries, one JSON object a line";
    deliveries_command(alloc, "straighten", about)
}

/// The subcommand `import FILE DB CSV [--dry-run] [--record PATH]`.
fn import_command<'a>(alloc: Global) -> Result<Command<'a>, AllocError>
    ensures { Makes import_app result }
{
    let about = "Adds a list of holidays to the calendars of a database, and prints the reply";
    let help = "The holidays, as CSV with the header calendar,entry";
    let holidays = needed(alloc, "holidays", "CSV", help);
    let import = database_command(alloc, "import", about, holidays);
    let dry_run = flag(alloc, "dry-run", "Prints the reply, and changes nothing");
    with_argument(with_argument(import, dry_run), record_argument(alloc, KEPT))
}

/// The subcommand `tick FILE DB AT [--record PATH]`.
fn tick_command<'a>(alloc: Global) -> Result<Command<'a>, AllocError>
    ensures { Makes tick_app result }
{
    let about = "Settles the schedules in a database at a moment, and prints the reply";
    let help = "The moment, in hundredths of a second since 1970-01-01T00:00:00Z";
    let at = needed(alloc, "at", "AT", help).value_parser(clap::value_parser!(i64));
    with_argument(
        database_command(alloc, "tick", about, at),
        record_argument(alloc, KEPT),
    )
}

/// The subcommand `report FILE DB DATE`.
fn report_command<'a>(alloc: Global) -> Result<Command<'a>, AllocError>
    ensures { Makes report_app result }
{
    let about = "Prints when each schedule has which value on a day, and how each point is now";
    let help = "The day, as YYYY-MM-DD";
    database_command(alloc, "report", about, needed(alloc, "date", "DATE", help))
}

/// The subcommand `serve FILE DB ADDRESS [--requests N] [--clock] [--record PATH]`.
fn serve_command<'a>(alloc: Global) -> Result<Command<'a>, AllocError>
    ensures { Makes serve_app result }
{
    let about = "Answers the requests of wall panels and of who asks, over HTTP";
    let help = "The address to listen on, with its port, as 127.0.0.1:8080";
    let address = needed(alloc, "address", "ADDRESS", help);
    let clock = "Delivers a tick of the machine's clock before each request";
    let serve = database_command(alloc, "serve", about, address);
    let serve = with_argument(serve, requests_argument(alloc));
    with_argument(
        with_argument(serve, flag(alloc, "clock", clock)),
        record_argument(alloc, KEPT),
    )
}

/// A subcommand that takes FILE and DELIVERIES.
fn deliveries_command<'a>(
    alloc: Global,
    name: &'a str,
    about: &'a str,
) -> Result<Command<'a>, AllocError>
    ensures { Makes (deliveries_app name.now) result }
{
    let help = "The deliveries, one JSON object a line";
    let deliveries = needed(alloc, "deliveries", "DELIVERIES", help);
    with_argument(file_command(alloc, name, about), deliveries)
}

/// A subcommand that takes FILE, DB, which is made where there is none, and one argument more.
fn database_command<'a>(
    alloc: Global,
    name: &'a str,
    about: &'a str,
    last: Arg<'a>,
) -> Result<Command<'a>, AllocError>
    requires { last.global ≡ false }
    ensures { Makes (database_app name.now (rule_of last.entry)) result }
{
    let help = "The database of the desk, which is made where there is none";
    let database = needed(alloc, "database", "DB", help);
    with_argument(
        with_argument(file_command(alloc, name, about), database),
        last,
    )
}

/// A subcommand that takes FILE.
fn file_command<'a>(alloc: Global, name: &'a str, about: &'a str) -> Result<Command<'a>, AllocError>
    ensures { Makes (file_app name.now) result }
{
    Command::new(alloc, name)
        .about(about)
        .arg(needed(alloc, "file", "FILE", "The building, as TOML"))
}

/// A command with one subcommand more, where memory was had for both.
fn with_subcommand<'a>(
    command: Result<Command<'a>, AllocError>,
    subcommand: Result<Command<'a>, AllocError>,
) -> Result<Command<'a>, AllocError>
    ensures { (app sub : App) → Makes app command.entry → Makes sub subcommand.entry
        → Makes (with_subcommand app sub.top) result }
{
    if let Ok(command) = command
        && let Ok(subcommand) = subcommand
    {
        command.subcommand(subcommand)
    } else {
        Err(AllocError)
    }
}

/// A command with one argument more, where memory was had for it.
fn with_argument<'a>(
    command: Result<Command<'a>, AllocError>,
    argument: Arg<'a>,
) -> Result<Command<'a>, AllocError>
    requires { argument.global ≡ false }
    ensures { (app : App) → Makes app command.entry → Makes (with_rule app (rule_of argument.entry)) result }
{
    match command {
        Ok(command) => command.arg(argument),
        Err(AllocError) => Err(AllocError),
    }
}
