//! The list of the days on which exceptions of schedules speak.
use crate::checks::{Found, is_nothing_at, one_of, store_of};
use crate::input_at;
use cli_common::{Input, Status};
use cli_days::{Bounds, days, days_in_database};
use std::io::{self, BufWriter, Read, Write};
use store::{OpenFault, Store};
use store_file::find_store;

/// Lists the days over the building of a path, and over the database of another, if there is to be one. It is an error
/// where memory for the output's buffer is refused.
pub fn run<'a>(
    rt: &HostRuntime,
    file: &'a str,
    database: Option<&'a str>,
    bounds: Bounds<'_>,
) -> io::Result<Status> {
    match database {
        Some(database) => run_in_database(rt, file, database, bounds),
        None => {
            let mut out = BufWriter::new(rt.alloc(), io::writer(rt))?;
            let building = input_at(rt, file);
            Ok(days(rt.alloc(), building, bounds, &mut out, &mut rt.stderr()))
        }
    }
}

fn run_in_database<'a>(
    rt: &HostRuntime,
    file: &'a str,
    database: &'a str,
    bounds: Bounds<'_>,
) -> io::Result<Status> {
    let mut out = BufWriter::new(rt.alloc(), io::writer(rt))?;
    let building = input_at(rt, file);
    let found = Found {
        path: database,
        is_missing: is_nothing_at(rt, database),
        opener: || one_of(find_store(rt, database)),
    };
    Ok(run_over(rt, building, bounds, found, &mut out, &mut rt.stderr()))
}

/// The same over the file and the store that is found. It is generic over them, since a call that names their types is
/// dear to prove.
fn run_over<'a, B: Read + Drop, S: Store + Drop, O, W: Write, F: Write>(
    rt: &HostRuntime,
    building: Input<'a, B>,
    bounds: Bounds<'_>,
    found: Found<'a, O>,
    out: &mut W,
    fault: &mut F,
) -> Status
where
    O: FnOnce() -> Result<S, OpenFault>,
    O: Drop,
    requires { O.IsAlwaysCallable found.opener }
{
    let Found {
        path,
        is_missing,
        opener,
    } = found;
    let finder = move || store_of(is_missing, opener);
    days_in_database(rt.alloc(), building, bounds, path, finder, out, fault).status
}
