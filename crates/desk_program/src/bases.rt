//! The base that a record stands on: a database beside it, which is only read.
use crate::checks::explained;
use crate::new_database::{log_of, stands_at};
use cli_base::{Base, BaseFault, read_base};
use cli_common::{RunFault, Status, print_fault};
use std::alloc::{AllocError, Global};
use std::{fs, io};
use store::{OpenFault, Store};
use store_file::find_store;
use store_memory::MemStore;

/// The least length of a log that has a frame: its header, and that of the frame.
const FIRST_FRAME: u64 = 32 + 24;

/// The path of the base of a list.
pub fn base_of(rt: &HostRuntime, list: &str) -> Result<String, AllocError> {
    format!(in rt.alloc(); "{list}.base")
}

/// The tables of the base of a list, if it stands on one. Where they are not read, that is printed, and this is the
/// status. It is an error where memory for a path is refused.
pub fn base_under(rt: &HostRuntime, list: &str) -> io::Result<Result<Option<MemStore>, Status>> {
    let base = base_of(rt, list)?;
    if !stands_at(rt, base.as_str()) {
        return Ok(Ok(None));
    }
    let found = tables_found(
        rt.alloc(),
        || explained(rt, base.as_str(), find_store(rt, base.as_str())),
    );
    let _removed = remove_empty_log(rt, base.as_str());
    match found {
        Ok(tables) => Ok(Ok(Some(tables))),
        Err(fault) => {
            print_unread(rt, &fault, base.as_str())?;
            Ok(Err(fault.status()))
        }
    }
}

/// The tables of the store that is found. It is generic over it, since a call that names the type of a real store is dear
/// to prove.
fn tables_found<'a, S: Store + Drop, N>(alloc: Global, finder: N) -> Result<MemStore, RunFault<'a>>
where
    N: FnOnce() -> Result<Option<S>, OpenFault>,
    requires { N.IsAlwaysCallable finder }
{
    match read_base(alloc, finder) {
        Ok(
            Base {
                tables,
                store: _store,
            },
        ) => match tables {
            Some(tables) => Ok(tables),
            None => Err(RunFault::UnknownTables),
        },
        Err(BaseFault::NotOpened(fault)) => Err(RunFault::from(fault)),
        Err(BaseFault::NotRead(fault)) => Err(RunFault::from(fault)),
    }
}

/// Prints why a base is not read, and which it is.
fn print_unread(rt: &HostRuntime, fault: &RunFault<'_>, base: &str) -> Result<(), AllocError> {
    let line = format!(in rt.alloc(); "{fault} at {base}")?;
    print_fault(rt.alloc(), &line, &mut rt.stderr());
    Ok(())
}

/// Removes the log that was made beside a base, where it has no frame.
fn remove_empty_log(rt: &HostRuntime, base: &str) -> io::Result<()> {
    let log = log_of(rt, base)?;
    if fs::metadata(rt, log.as_str())?.len() < FIRST_FRAME {
        fs::remove_file(rt, log.as_str())?;
    }
    Ok(())
}
