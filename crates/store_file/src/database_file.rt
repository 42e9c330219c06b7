//! The store in the database of a path.
ghost use Rattle.std.specs.Prelude.{◌≡◌, IsTrue, IfOk};
ghost use Rattle.sqlite_std_file.specs.File.{file_is_usable};
ghost use Rattle.sqlite.specs.declared.error.Error.TheVariants.{SqliteFailure};
ghost use Rattle.sqlite.specs.declared.error.ErrorCode.TheVariants.{OutOfMemory};
ghost use Rattle.store.specs.declared.open_fault.OpenFault.TheVariants.{Failed, NoMemory};

use crate::closing::closed;
use crate::connecting::{connected, options};
use crate::finding::{Found, found_as_it_is, is_nothing_at, store_found};
use crate::lost_part::{log_path, page_size_on_disk, refuse_lost};
use sqlite::{
    Alter, Connection, Error, ErrorCode, File, FileFrom, FileStore, Files, Options, Start, Unknown,
};
use sqlite_disk::Disk;
use sqlite_std_file::OpenError;
use std::alloc::Global;
use std::fs;
use std::hash::{BuildHasher, RandomState};
use std::io::{self, ErrorKind};
use store::{OpenFault, StoreFault};
use store_sql::SqlStore;

/// Why a database whose files can't be had is not opened: S1 for lack of memory, else S2.
pub(crate) fn fault_of(error: &Error) -> OpenFault
    ensures no_memory { error.now ≡ SqliteFailure OutOfMemory → result ≡ NoMemory }
    ensures failed { (error.now ≡ SqliteFailure OutOfMemory → ⊥) → result ≡ Failed }
{
    match error {
        Error::SqliteFailure(ErrorCode::OutOfMemory) => OpenFault::NoMemory,
        _ => OpenFault::Failed,
    }
}

/// The same of files that are not opened at all.
fn files_fault(error: &OpenError) -> OpenFault {
    match error {
        OpenError::OutOfMemory => OpenFault::NoMemory,
        OpenError::Io(error) if error.kind() == ErrorKind::OutOfMemory => OpenFault::NoMemory,
        _ => OpenFault::Failed,
    }
}

/// How many pages of a new database are kept in memory: 8 MB.
const PAGES: usize = 16_000;

/// How many pages of a size, as the header says it, are 8 MB: room for them is made when a database is opened. A file
/// that says none is a new one.
fn pages_of(size: u16) -> usize {
    match size {
        1_024 => 8_000,
        2_048 => 4_000,
        4_096 => 2_000,
        8_192 => 1_000,
        16_384 => 500,
        32_768 => 250,
        // 65,536, which two bytes can't hold
        1 => 125,
        _ => PAGES,
    }
}

/// How the database of a path is kept, under a random number of its own.
fn options_at(rt: &HostRuntime, path: &str) -> Result<Options, OpenFault> {
    let Ok(state) = RandomState::new(rt) else {
        return Err(OpenFault::Failed);
    };
    let pages = pages_of(page_size_on_disk(rt, path).unwrap_or(0));
    Ok(options(state.hash_one(&0u8), pages))
}

/// The two files of a database, which are made where they are missing. A path that SQLite reads as no file's is
/// refused.
fn files_at<S: Start>(
    rt: &HostRuntime,
    path: &str,
    start: S,
) -> Result<Files<FileFrom<S>>, OpenFault>
    ensures log { IfOk result (λ files. IsTrue (file_is_usable S.Start files.log)) }
    ensures db { IfOk result (λ files. IsTrue (file_is_usable S.Start files.db)) }
{
    if path == ":memory:" || path.starts_with("file:") {
        return Err(OpenFault::Failed);
    }
    match sqlite_std_file::open(rt, path, start) {
        Ok(files) => Ok(files),
        Err(error) => Err(files_fault(&error)),
    }
}

/// The store over a connection to tables that are there.
pub(crate) fn store_over<S: Alter + Drop>(
    alloc: Global,
    connection: Connection<S>,
) -> Result<SqlStore<S>, OpenFault> {
    match SqlStore::open(alloc, connection) {
        Ok(store) => Ok(store),
        Err((fault, _connection)) => Err(fault),
    }
}

/// The store in the database of two files that hold its tables. It is generic over the files, as are those below, since
/// a call that ends in more than one way is dear to prove where it names the types of real ones.
fn store_in<D: Disk + Drop>(
    alloc: Global,
    files: Files<D>,
    options: Options,
) -> Result<SqlStore<FileStore<D>>, OpenFault>
    requires log { IsTrue (D.Disk.is_usable files.log) }
    requires db { IsTrue (D.Disk.is_usable files.db) }
{
    match connected(alloc, files, options) {
        Ok(connection) => store_over(alloc, connection),
        Err((error, _files)) => Err(fault_of(&error)),
    }
}

/// A store whose tables were just made, closed and opened again. So they stand in the database file before the first
/// delivery, and it shows whose it is, also without its log.
fn settled<D: Disk + Drop>(
    alloc: Global,
    store: SqlStore<FileStore<D>>,
    options: Options,
) -> Result<SqlStore<FileStore<D>>, OpenFault> {
    match closed(store) {
        Ok(files) => store_in(alloc, files, options),
        Err((StoreFault::NoMemory, _left)) => Err(OpenFault::NoMemory),
        Err((_, _left)) => Err(OpenFault::Failed),
    }
}

/// The store over a connection, whose tables are made where there is nothing.
fn made_or_opened<D: Disk + Drop>(
    alloc: Global,
    connection: Connection<FileStore<D>>,
    options: Options,
) -> Result<SqlStore<FileStore<D>>, OpenFault> {
    match SqlStore::create(alloc, connection) {
        Ok(store) => settled(alloc, store, options),
        Err((OpenFault::UnknownTables, connection)) => store_over(alloc, connection),
        Err((fault, _connection)) => Err(fault),
    }
}

/// The store in the database of two files, which is begun where there is none.
fn begun_or_opened<D: Disk + Drop>(
    alloc: Global,
    files: Files<D>,
    options: Options,
) -> Result<SqlStore<FileStore<D>>, OpenFault>
    requires log { IsTrue (D.Disk.is_usable files.log) }
    requires db { IsTrue (D.Disk.is_usable files.db) }
{
    match connected(alloc, files, options) {
        Ok(connection) => made_or_opened(alloc, connection, options),
        Err((error, _files)) => Err(fault_of(&error)),
    }
}

/// The store in a database of real files.
pub type DeskStore = SqlStore<FileStore<File>>;

/// The store in the database of a path, whose file and tables are made where there is nothing. A database that another
/// process holds is not opened, and none is begun where one has lost a part.
pub fn open_store(rt: &HostRuntime, path: &str) -> Result<DeskStore, OpenFault> {
    refuse_lost(rt, path)?;
    let files = files_at(rt, path, Unknown)?;
    begun_or_opened(rt.alloc(), files, options_at(rt, path)?)
}

/// Closes a store (`closed`), and lets its files go.
pub fn close_store(store: DeskStore) -> Result<(), StoreFault> {
    match closed(store) {
        Ok(_files) => Ok(()),
        Err((fault, _left)) => Err(fault),
    }
}

/// The store in the database of a path, if there is one. Where nothing stands at the path, or what a stop left of a
/// beginning, there is none, and none is made; a log that is missing beside a file with content is made. Files that
/// have lost a part are refused.
pub fn find_store(rt: &HostRuntime, path: &str) -> Result<Option<DeskStore>, OpenFault> {
    refuse_lost(rt, path)?;
    if is_nothing_at(rt, path) {
        return Ok(None);
    }
    let files = files_at(rt, path, Unknown)?;
    store_found(rt.alloc(), files, options_at(rt, path)?)
}

/// What `find_store` would find in the database of a path, which is left as it is but for a log that is missing and
/// made empty: tables of version 1 are not opened, since that would change them.
pub fn find_store_as_it_is(rt: &HostRuntime, path: &str) -> Result<Found<DeskStore>, OpenFault> {
    refuse_lost(rt, path)?;
    if is_nothing_at(rt, path) {
        return Ok(Found::Nothing);
    }
    let files = files_at(rt, path, Unknown)?;
    found_as_it_is(rt.alloc(), files, options_at(rt, path)?)
}

/// A real file of a record.
pub type RecordFile = File;

/// Removes the log that was made beside a file that has none, where it has nothing in it.
fn remove_empty_log(rt: &HostRuntime, path: &str) -> io::Result<()> {
    let log = log_path(rt, path)?;
    if fs::metadata(rt, log.as_str())?.len() == 0 {
        fs::remove_file(rt, log.as_str())?;
    }
    Ok(())
}

/// The file of a record, which is made where there is none. A file that another process holds is not opened. It is
/// opened as that of a database is, since the kit has its contract for such files alone; the log that is made beside it
/// is removed.
pub fn open_record(rt: &HostRuntime, path: &str) -> Result<RecordFile, OpenFault> {
    let Files { db, log: _log } = files_at(rt, path, Unknown)?;
    let _removed = remove_empty_log(rt, path);
    Ok(db)
}
