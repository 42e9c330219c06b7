//! The program `desk`: hands the words, the files and the standard streams to the libraries that do the work.
#![tactic(auto)]

use crate::bases::{base_of, base_under};
use crate::new_database::stands_at;
use crate::rebuilds::Rebuild;
use crate::runs::DatabaseRun;
use cli_check::{Detail, check};
use cli_common::{Input, ListInput, Status, print_fault};
use cli_days::Bounds;
use cli_store::Serving;
use cli_words::{ArgFault, Line};
use desk_cli::{Question, describe, explain, replay, straighten};
use std::env;
use std::fs::{self, File};
use std::io::{self, BufReader, BufWriter, Write};
use std::os::fd::AsRawFd;
use std::process::ExitCode;

mod adoptions;
mod bases;
mod checks;
mod day_lists;
mod hints;
mod new_database;
mod rebuilds;
mod runs;
mod tried_import;

/// The null device, opened for reading, where it gets the number of a standard descriptor that is closed. Where no
/// descriptor is left to be had no file gets such a number either.
fn hold_standard_descriptor(rt: &HostRuntime) -> io::Result<Option<File>> {
    match fs::open(rt, "/dev/null") {
        Ok(device) => {
            if device.as_raw_fd() <= 2 {
                Ok(Some(device))
            } else {
                Ok(None)
            }
        }
        Err(error) => match error.kind() {
            io::ErrorKind::NotFound | io::ErrorKind::PermissionDenied => Err(error),
            _ => Ok(None),
        },
    }
}

/// Opens the null device, for reading, on each standard descriptor that is closed, so that no other file
/// gets its number. A write to such a descriptor fails, as it should.
fn take_standard_descriptors(rt: &HostRuntime) -> io::Result<[Option<File>; 3]> {
    Ok([
        hold_standard_descriptor(rt)?,
        hold_standard_descriptor(rt)?,
        hold_standard_descriptor(rt)?,
    ])
}

/// The words of the command line, the program's name first.
fn words(rt: &HostRuntime) -> io::Result<Vec<String>> {
    let mut words = Vec::new(rt.alloc());
    for word in env::args(rt)? {
        words.push(word)?;
    }
    Ok(words)
}

/// The file of a path, read in blocks.
fn open_list(rt: &HostRuntime, path: &str) -> io::Result<BufReader<File>> {
    BufReader::new(rt.alloc(), fs::open(rt, path)?)
}

/// The file of a path.
fn input_at<'a>(rt: &HostRuntime, path: &'a str) -> Input<'a, File> {
    Input {
        path,
        reader: fs::open(rt, path),
    }
}

fn run_check<'a>(
    rt: &HostRuntime,
    file: &'a str,
    database: Option<&'a str>,
    detail: Detail,
) -> io::Result<Status> {
    if let Some(database) = database {
        return checks::run(rt, file, database, detail);
    }
    let alloc = rt.alloc();
    let mut out = BufWriter::new(alloc, io::writer(rt))?;
    let building = input_at(rt, file);
    Ok(check(alloc, building, detail, &mut out, &mut rt.stderr()))
}

/// Compares with a record, for which there is to be a database.
fn run_record(
    rt: &HostRuntime,
    file: &str,
    database: Option<&str>,
    record: &str,
) -> io::Result<Status> {
    match database {
        Some(database) => checks::run_record(rt, file, database, record),
        None => {
            let _printed = eprintln!(rt; "desk: --record is for a database");
            Ok(Status::Words)
        }
    }
}

fn run_describe(rt: &HostRuntime, file: &str) -> io::Result<Status> {
    let alloc = rt.alloc();
    let mut out = BufWriter::new(alloc, io::writer(rt))?;
    let building = input_at(rt, file);
    Ok(describe(alloc, building, &mut out, &mut rt.stderr()))
}

/// What a run over a list of deliveries prints.
#[derive(Clone, Copy)]
enum ListRun<'a> {
    /// The replies and then the points, up to a moment: `desk replay`.
    Replay {
        until: Option<&'a str>,
    },
    /// The list that a perfect network would have brought: `desk straighten`.
    Straighten,
    /// What the list explains, up to a moment: `desk why` and `desk overrides`.
    Explain {
        question: Question<'a>,
        until: Option<&'a str>,
    },
}

/// Whether a list stands on a base, which is printed as a fault.
fn stands_on_base(rt: &HostRuntime, list: &str) -> io::Result<bool> {
    let base = base_of(rt, list)?;
    let stands = stands_at(rt, base.as_str());
    if stands {
        let line = format!(in rt.alloc();
            "desk: {list} stands on {base}: only a whole list is straightened"
        )?;
        print_fault(rt.alloc(), &line, &mut rt.stderr());
    }
    Ok(stands)
}

/// Makes a run over the building and the list of these paths. It is an error where memory for a path or for the output's
/// buffer is refused.
fn run_list(
    rt: &HostRuntime,
    file: &str,
    deliveries: &str,
    run: ListRun<'_>,
) -> io::Result<Status> {
    let alloc = rt.alloc();
    if let ListRun::Straighten = run {
        if stands_on_base(rt, deliveries)? {
            return Ok(Status::Fault);
        }
    }
    let base = match base_under(rt, deliveries)? {
        Ok(base) => base,
        Err(status) => return Ok(status),
    };
    let mut out = BufWriter::new(alloc, io::writer(rt))?;
    let fault = &mut rt.stderr();
    let building = input_at(rt, file);
    let list = ListInput {
        path: deliveries,
        open: || open_list(rt, deliveries),
    };
    Ok(match run {
        ListRun::Replay { until } => { replay(alloc, building, list, base, until, &mut out, fault) }
        ListRun::Straighten => straighten(alloc, building, list, &mut out, fault),
        ListRun::Explain { question, until } => explain(
            alloc, building, list, base, question, until, &mut out, fault,
        ),
    })
}

/// The status of words that ask for no run, once their text is printed: the version to the standard output.
fn refuse(rt: &HostRuntime, fault: &ArgFault) -> Status {
    match fault {
        ArgFault::Version => {
            match write!(io::writer(rt), "{fault}") {
                Ok(()) => Status::Done,
                Err(_) => Status::Fault,
            }
        }
        ArgFault::Words(_) => {
            let _printed = write!(rt.stderr(), "{fault}");
            Status::Words
        }
        ArgFault::NoMemory => {
            let _printed = write!(rt.stderr(), "{fault}");
            Status::Store
        }
    }
}

/// The status of words that can't be read.
fn refuse_unread(rt: &HostRuntime, error: &io::Error) -> Status {
    match error.kind() {
        io::ErrorKind::OutOfMemory => {
            let _printed = eprintln!(rt; "desk: out of memory");
            Status::Store
        }
        _ => {
            let _printed = eprintln!(rt; "desk: a word of the command line is not UTF-8");
            Status::Words
        }
    }
}

fn run(rt: &HostRuntime, words: &[String]) -> io::Result<Status> {
    match Line::of(rt.alloc(), words) {
        Ok(
            Line::Adopt {
                file,
                database,
                made,
                renamings,
                dry_run,
            },
        ) => {
            let adoption = adoptions::Adoption {
                file,
                database,
                made,
                renamings: renamings.as_slice(),
                dry_run,
            };
            adoptions::run(rt, adoption)
        }
        Ok(
            Line::Check {
                file,
                database,
                explain,
                hints: asks_hints,
                record,
            },
        ) => {
            if asks_hints {
                return hints::run(rt, file, database);
            }
            if let Some(record) = record {
                return run_record(rt, file, database, record);
            }
            let detail = if explain {
                Detail::Explained
            } else {
                Detail::Line
            };
            run_check(rt, file, database, detail)
        }
        Ok(
            Line::Rebuild {
                file,
                record,
                database,
            },
        ) => {
            let rebuild = Rebuild {
                file,
                record,
                database,
            };
            rebuilds::run(rt, rebuild)
        }
        Ok(Line::Describe { file }) => run_describe(rt, file),
        Ok(
            Line::Replay {
                file,
                deliveries,
                until,
            },
        ) => run_list(rt, file, deliveries, ListRun::Replay { until }),
        Ok(
            Line::Why {
                file,
                deliveries,
                point,
                until,
            },
        ) => {
            let question = Question::Why { point };
            run_list(rt, file, deliveries, ListRun::Explain { question, until })
        }
        Ok(
            Line::Overrides {
                file,
                deliveries,
                from,
                until,
            },
        ) => {
            let question = Question::Overrides { from };
            run_list(rt, file, deliveries, ListRun::Explain { question, until })
        }
        Ok(Line::Straighten { file, deliveries }) => {
            run_list(rt, file, deliveries, ListRun::Straighten)
        }
        Ok(
            Line::Import {
                file,
                database,
                holidays,
                dry_run,
                record,
            },
        ) => {
            if dry_run {
                return tried_import::run(rt, file, database, holidays);
            }
            runs::run(
                rt,
                file,
                database,
                record,
                &DatabaseRun::Import { holidays },
            )
        }
        Ok(
            Line::Tick {
                file,
                database,
                at,
                record,
            },
        ) => { runs::run(rt, file, database, record, &DatabaseRun::Tick { at }) }
        Ok(
            Line::Report {
                file,
                database,
                date,
            },
        ) => runs::run(rt, file, database, None, &DatabaseRun::Report { date }),
        Ok(
            Line::Days {
                file,
                database,
                from,
                to,
            },
        ) => day_lists::run(rt, file, database, Bounds { from, to }),
        Ok(
            Line::Serve {
                file,
                database,
                address,
                requests,
                clock,
                record,
            },
        ) => {
            let serving = Serving {
                address,
                requests: requests.unwrap_or(u64::MAX),
                clock,
            };
            runs::run(rt, file, database, record, &DatabaseRun::Serve(serving))
        }
        Err(fault) => Ok(refuse(rt, &fault)),
    }
}

fn run_words(rt: &HostRuntime) -> io::Result<Status> {
    match words(rt) {
        Ok(words) => run(rt, words.as_slice()),
        Err(error) => Ok(refuse_unread(rt, &error)),
    }
}

fn status(rt: &HostRuntime) -> io::Result<Status> {
    match take_standard_descriptors(rt) {
        Ok(_held) => run_words(rt),
        Err(_) => {
            let _printed = eprintln!(rt; "desk: cannot read /dev/null");
            Ok(Status::Fault)
        }
    }
}

fn main(rt: HostRuntime) -> ExitCode {
    let status = match status(&rt) {
        Ok(status) => status,
        Err(_) => {
            let _printed = eprintln!(rt; "desk: out of memory");
            Status::Store
        }
    };
    ExitCode::from(status.code())
}
