//! The check of a building file and a database beside it, and of a record beside both.
use crate::bases::base_under;
use cli_check::{Detail, check_database};
use cli_common::{Input, ListInput, Status, print_fault};
use cli_record::check_record;
use std::fs;
use std::io::{self, BufReader, BufWriter, ErrorKind, Read, Write};
use store::{OpenFault, Store};
use store_file::{find_store, refusal_at};
use store_memory::MemStore;

/// Whether there is no file at a path, or an empty one.
pub fn is_nothing_at(rt: &HostRuntime, path: &str) -> bool {
    match fs::metadata(rt, path) {
        Ok(found) => found.len() == 0,
        Err(error) => error.kind() == ErrorKind::NotFound,
    }
}

/// A store that is found. A database that has no table at all is none that is known.
pub fn one_of<S: Drop>(found: Result<Option<S>, OpenFault>) -> Result<S, OpenFault> {
    match found {
        Ok(Some(store)) => Ok(store),
        Ok(None) => Err(OpenFault::UnknownTables),
        Err(fault) => Err(fault),
    }
}

/// A store that is found; of a database that is not opened (S2) the reason is printed first.
pub fn explained<S: Drop>(
    rt: &HostRuntime,
    path: &str,
    found: Result<S, OpenFault>,
) -> Result<S, OpenFault> {
    if let Err(OpenFault::Failed) = &found {
        let refusal = refusal_at(rt, path);
        if let Ok(line) = format!(in rt.alloc(); "desk: {path}: {refusal}") {
            print_fault(rt.alloc(), &line, &mut rt.stderr());
        }
    }
    found
}

/// The database of a path, with the call that opens it.
#[derive(Drop)]
pub struct Found<'a, O> {
    pub path: &'a str,
    /// Whether there is nothing at the path.
    pub is_missing: bool,
    pub opener: O,
}

/// The store of a database, if there is one.
pub fn store_of<S: Drop, O>(is_missing: bool, opener: O) -> Result<Option<S>, OpenFault>
where
    O: FnOnce() -> Result<S, OpenFault>,
    O: Drop,
    requires { O.IsAlwaysCallable opener }
{
    if is_missing {
        return Ok(None);
    }
    match opener() {
        Ok(store) => Ok(Some(store)),
        Err(fault) => Err(fault),
    }
}

/// Checks the tables in the database of a path beside the building of another. It is an error where memory for the
/// output's buffer is refused.
pub fn run<'a>(
    rt: &HostRuntime,
    file: &'a str,
    database: &'a str,
    detail: Detail,
) -> io::Result<Status> {
    let mut out = BufWriter::new(rt.alloc(), io::writer(rt))?;
    let building = Input {
        path: file,
        reader: fs::open(rt, file),
    };
    let found = Found {
        path: database,
        is_missing: is_nothing_at(rt, database),
        opener: || explained(rt, database, one_of(find_store(rt, database))),
    };
    Ok(run_over(rt, building, detail, found, &mut out, &mut rt.stderr()))
}

/// The same over the file and the store that is found. It is generic over them, since a call that names their types is
/// dear to prove.
fn run_over<'a, B: Read + Drop, S: Store + Drop, O, W: Write, F: Write>(
    rt: &HostRuntime,
    building: Input<'a, B>,
    detail: Detail,
    found: Found<'a, O>,
    out: &mut W,
    fault: &mut F,
) -> Status
where
    O: FnOnce() -> Result<S, OpenFault>,
    O: Drop,
    requires { O.IsAlwaysCallable found.opener }
{
    let Found {
        path,
        is_missing,
        opener,
    } = found;
    let finder = move || store_of(is_missing, opener);
    check_database(rt.alloc(), building, detail, path, finder, out, fault).status
}

/// Compares the tables in the database of a path with those that the record of another leaves in a building. It is an
/// error where memory for the output's buffer is refused.
pub fn run_record<'a>(
    rt: &HostRuntime,
    file: &'a str,
    database: &'a str,
    record: &'a str,
) -> io::Result<Status> {
    let mut out = BufWriter::new(rt.alloc(), io::writer(rt))?;
    let base = match base_under(rt, record)? {
        Ok(base) => base,
        Err(status) => return Ok(status),
    };
    let building = Input {
        path: file,
        reader: fs::open(rt, file),
    };
    let list = ListInput {
        path: record,
        open: || BufReader::new(rt.alloc(), fs::open(rt, record)?),
    };
    let found = Found {
        path: database,
        is_missing: is_nothing_at(rt, database),
        opener: || explained(rt, database, one_of(find_store(rt, database))),
    };
    Ok(run_record_over(rt, building, list, base, found, &mut out, &mut rt.stderr()))
}

/// The same over the files and the store that is found, and generic over them too.
fn run_record_over<'a, B: Read + Drop, D: Read + Drop, P, S: Store + Drop, O, W: Write, F: Write>(
    rt: &HostRuntime,
    building: Input<'a, B>,
    list: ListInput<'a, P>,
    base: Option<MemStore>,
    found: Found<'a, O>,
    out: &mut W,
    fault: &mut F,
) -> Status
where
    P: FnOnce() -> io::Result<BufReader<D>>,
    O: FnOnce() -> Result<S, OpenFault>,
    O: Drop,
    requires list { P.IsAlwaysCallable list.open }
    requires opens { O.IsAlwaysCallable found.opener }
{
    let Found {
        path,
        is_missing,
        opener,
    } = found;
    let finder = move || store_of(is_missing, opener);
    check_record(rt.alloc(), building, list, base, path, finder, out, fault).status
}
