//! The store of a database that is there.
ghost use Rattle.std.specs.Prelude.{IsTrue};

use crate::connecting::{PAGE_BYTES, probe_error};
use crate::database_file::{fault_of, store_over};
use sqlite::{Alter, Connection, Error, FileStore, Files, Options};
use sqlite_disk::Disk;
use sqlite_pager::PageSize;
use sqlite_pool::probe_blank;
use std::alloc::Global;
use std::fs;
use std::io::{ErrorKind, Read};
use store::OpenFault;
use store_sql::SqlStore;
use store_sql_rows::{has_desk_schema, has_no_schema};

/// Whether there is no file at a path, or an empty one.
pub(crate) fn is_nothing_at(rt: &HostRuntime, path: &str) -> bool {
    let mut first = [0u8; 1];
    match fs::open(rt, path) {
        Ok(mut file) => matches!(file.read(&mut first), Ok(0)),
        Err(error) => error.kind() == ErrorKind::NotFound,
    }
}

/// A connection to the database in two files, if they hold one with something in it.
fn connection_found<D: Disk + Drop>(
    alloc: Global,
    mut files: Files<D>,
    options: Options,
) -> Result<Option<Connection<FileStore<D>>>, OpenFault>
    requires log { IsTrue (D.Disk.is_usable files.log) }
    requires db { IsTrue (D.Disk.is_usable files.db) }
{
    let size = PageSize::new(PAGE_BYTES).unwrap();
    match probe_blank(alloc, &mut files, size, false) {
        Ok(true) => Ok(None),
        Ok(false) => match Connection::open_files(alloc, files, options) {
            Ok(connection) if has_no_schema(&connection) => Ok(None),
            Ok(connection) => Ok(Some(connection)),
            Err((error, _files)) => Err(fault_of(&error)),
        },
        Err(error) => Err(fault_of(&probe_error(&error))),
    }
}

/// The store in the database of two files, if they hold one.
pub(crate) fn store_found<D: Disk + Drop>(
    alloc: Global,
    files: Files<D>,
    options: Options,
) -> Result<Option<SqlStore<FileStore<D>>>, OpenFault>
    requires log { IsTrue (D.Disk.is_usable files.log) }
    requires db { IsTrue (D.Disk.is_usable files.db) }
{
    match connection_found(alloc, files, options)? {
        Some(connection) => Ok(Some(store_over(alloc, connection)?)),
        None => Ok(None),
    }
}

/// What a search for a store finds that is to be left as it is.
#[derive(Drop)]
pub enum Found<S> {
    /// There is no database.
    Nothing,
    /// Its tables are of version 1: an opening would make them those of version 2.
    FirstVersion,
    /// The store in it.
    Store(S),
}

/// The version that the row of `desk` says, if it says one.
fn version_in<S: Alter>(connection: &mut Connection<S>) -> Result<Option<i64>, OpenFault> {
    match connection.query_row("SELECT version FROM desk", &[]) {
        Ok(row) => match row.get(0) {
            Ok(version) => Ok(Some(version)),
            Err(error) => Err(fault_of(&error)),
        },
        Err(Error::QueryReturnedNoRows) => Ok(None),
        Err(error) => Err(fault_of(&error)),
    }
}

/// The store over a connection to a database that has something in it, unless its tables are of version 1.
fn store_as_it_is<S: Alter + Drop>(
    alloc: Global,
    connection: Connection<S>,
) -> Result<Found<SqlStore<S>>, OpenFault> {
    let mut connection = connection;
    if has_desk_schema(&connection) && version_in(&mut connection)? == Some(1) {
        return Ok(Found::FirstVersion);
    }
    Ok(Found::Store(store_over(alloc, connection)?))
}

/// What is found in two files, which are left as they are.
pub(crate) fn found_as_it_is<D: Disk + Drop>(
    alloc: Global,
    files: Files<D>,
    options: Options,
) -> Result<Found<SqlStore<FileStore<D>>>, OpenFault>
    requires log { IsTrue (D.Disk.is_usable files.log) }
    requires db { IsTrue (D.Disk.is_usable files.db) }
{
    match connection_found(alloc, files, options)? {
        Some(connection) => store_as_it_is(alloc, connection),
        None => Ok(Found::Nothing),
    }
}
