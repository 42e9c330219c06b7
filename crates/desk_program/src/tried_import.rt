//! The import that is only tried.
use crate::checks::{Found, is_nothing_at, one_of, store_of};
use crate::input_at;
use cli_common::{Input, Status};
use cli_store::foretell;
use std::io::{self, BufWriter, Read, Write};
use store::{OpenFault, Store};
use store_file::find_store;

/// Prints the reply that the import of a holiday list would get, over the building and the database of these paths, which
/// stays as it is. It is an error where memory for the output's buffer is refused.
pub fn run<'a>(
    rt: &HostRuntime,
    file: &'a str,
    database: &'a str,
    holidays: &'a str,
) -> io::Result<Status> {
    let mut out = BufWriter::new(rt.alloc(), io::writer(rt))?;
    let building = input_at(rt, file);
    let list = input_at(rt, holidays);
    let found = Found {
        path: database,
        is_missing: is_nothing_at(rt, database),
        opener: || one_of(find_store(rt, database)),
    };
    Ok(run_over(rt, building, list, found, &mut out, &mut rt.stderr()))
}

/// The same over the files and the store that is found. It is generic over them, since a call that names their types is
/// dear to prove.
fn run_over<'a, B: Read + Drop, S: Store + Drop, O, W: Write, F: Write>(
    rt: &HostRuntime,
    building: Input<'a, B>,
    list: Input<'a, B>,
    found: Found<'a, O>,
    out: &mut W,
    fault: &mut F,
) -> Status
where
    O: FnOnce() -> Result<S, OpenFault>,
    O: Drop,
    requires { O.IsAlwaysCallable found.opener }
{
    let Found {
        path: _path,
        is_missing,
        opener,
    } = found;
    let finder = move || store_of(is_missing, opener);
    foretell(rt.alloc(), building, list, finder, out, fault).status
}
