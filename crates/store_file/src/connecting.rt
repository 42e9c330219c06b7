//! A connection to the database in a file and its log.
ghost use Rattle.std.specs.Prelude.{◌≡◌, ◌/◌, [], IsTrue, IfOk, IfErr};
ghost use Rattle.sqlite_wal.specs.PageSize.{bytes_of};
ghost use Rattle.sqlite_store.specs.FileStore.{view};
ghost use Rattle.sqlite_store.specs.Unopened.{files_of, image, state_of, wanted_by, AreUsable, Creates};
ghost use Rattle.sqlite_pool.specs.Opening.{IsBlankFile};
ghost use Rattle.sqlite.specs.Held.{IsNew};
ghost use Rattle.sqlite.specs.State.{HasCleanDisk};
ghost use Rattle.sqlite.specs.Files.{file_state, faults_left, IsCleanLeft, IsFullLeft, IsOpened};
ghost use Rattle.sqlite.specs.Opening.{blurred, is_open_error, probed, reported, FailsFor, FailsToMake, IsMade};
ghost use Rattle.store_file.specs.Begun.{FailsToConnect, FindsOrBegins, IsBegun, LeavesFound, LeavesMade};

use sqlite::{Connection, Error, ErrorCode, FileStore, Files, Leftover, Options};
use sqlite_disk::Disk;
use sqlite_pager::{PageSize, Pager};
use sqlite_pool::probe_blank;
use sqlite_store::{OpenError, Unopened};
use std::alloc::{AllocFailed, Global};

/// The bytes of a page of a new database, the fewest that SQLite knows: a command writes five pages whole.
pub(crate) const PAGE_BYTES: usize = 512;

/// How a database is kept of which so many pages are kept in memory, of those read and of those written, before they
/// are let go or go to the log; half as many has the log before it is copied into the database file. The seed is a
/// random number.
pub fn options(seed: u64, pages: usize) -> Options
    ensures seed { result.seed ≡ seed }
    ensures memory { (result.cache_pages ≡ pages) × (result.spill_pages ≡ pages) }
    ensures log { result.checkpoint_frames ≡ pages / 2 }
{
    Options {
        cache_pages: pages,
        spill_pages: pages,
        checkpoint_frames: pages / 2,
        seed,
    }
}

/// Why a database could not be made, in the words of an open.
fn made_error(error: OpenError) -> Error
    ensures named { IsTrue (is_open_error result) }
    ensures value { result ≡ reported error }
{
    Error::SqliteFailure(match error {
        OpenError::OutOfMemory => ErrorCode::OutOfMemory,
        OpenError::Io => ErrorCode::SystemIoFailure,
        OpenError::Full => ErrorCode::DiskFull,
        OpenError::Refused => ErrorCode::DatabaseCorrupt,
    })
}

/// Why it could not be found out whether there is a database.
pub(crate) fn probe_error(error: &sqlite_wal::Error) -> Error
    ensures named { IsTrue (is_open_error result) }
    ensures value { result ≡ probed error.now }
{
    Error::SqliteFailure(match error {
        sqlite_wal::Error::OutOfMemory => ErrorCode::OutOfMemory,
        sqlite_wal::Error::Io(_) => ErrorCode::SystemIoFailure,
        sqlite_wal::Error::Full => ErrorCode::DiskFull,
        _ => ErrorCode::NotADatabase,
    })
}

/// Why a new database could not be connected to: what is not lack of memory is a fault of the disk.
fn new_error(error: Error) -> Error
    ensures named { IsTrue (is_open_error error) → IsTrue (is_open_error result) }
    ensures value { result ≡ blurred error }
{
    match error {
        Error::SqliteFailure(ErrorCode::DatabaseCorrupt | ErrorCode::DiskFull) => {
            Error::SqliteFailure(ErrorCode::SystemIoFailure)
        }
        other => other,
    }
}

/// The files of a database that is to have pages of this size and no table. They are given back where memory is
/// refused.
fn unopened<D: Disk>(
    alloc: Global,
    files: Files<D>,
    size: PageSize,
    options: Options,
) -> Result<Unopened<D>, Files<D>>
    ensures files { IfOk result (λ it. files_of it ≡ (files.log, files.db)) }
    ensures size { IfOk result (λ it. (state_of it).page_size ≡ bytes_of size) }
    ensures none { IfOk result (λ it. wanted_by it ≡ []) }
    ensures back { IfErr result (λ left. (left.log ≡ files.log) × (left.db ≡ files.db)) }
{
    let pager = match Pager::new(alloc, files, size, options) {
        Ok(pager) => pager,
        Err(AllocFailed { value }) => return Err(value),
    };
    match Unopened::new(alloc, pager, &[]) {
        Ok(fresh) => Ok(fresh),
        Err(AllocFailed { value }) => Err(value.close()),
    }
}

/// Makes a database with no table in files that hold none.
fn made<D: Disk>(fresh: Unopened<D>) -> Result<FileStore<D>, (Error, Unopened<D>)>
    requires usable { AreUsable fresh }
    requires none { wanted_by fresh ≡ [] }
    ensures named { IfErr result (λ e. IsTrue (is_open_error e.0)) }
    ensures honest { IfOk result (λ store. IsTrue (view store).is_clean → IsTrue (state_of fresh).is_clean) }
    ensures ok { IfOk result (λ store. IsTrue (view store).is_clean → IsMade fresh store) }
    ensures falls { IfErr result (λ e. IsTrue (state_of e.1).is_clean → IsTrue (state_of fresh).is_clean) }
    ensures cause { IfErr result (λ e. IsTrue (state_of e.1).is_clean → FailsToMake fresh e.1 e.0) }
    ensures kept { IfErr result (λ e. IsTrue (state_of e.1).is_clean → Creates fresh (state_of e.1)) }
{
    match fresh.create() {
        Ok(store) => Ok(store),
        Err((error, left)) => Err((made_error(error), left)),
    }
}

/// Makes a database with no table in files that hold none, and connects to it.
fn begun<D: Disk + Drop>(
    alloc: Global,
    fresh: Unopened<D>,
) -> Result<Connection<FileStore<D>>, (Error, Leftover<D>)>
    requires usable { AreUsable fresh }
    requires none { wanted_by fresh ≡ [] }
    ensures named { IfErr result (λ e. IsTrue (is_open_error e.0)) }
    ensures opened { IfOk result (λ c. HasCleanDisk (file_state c) → IsOpened c) }
    ensures empty { IfOk result (λ c. HasCleanDisk (file_state c) → IsTrue (state_of fresh).is_clean × IsBegun c) }
    ensures fresh { IfOk result IsNew }
    ensures cause { IfErr result (λ e. IsCleanLeft e.1 → IsTrue (state_of fresh).is_clean × FailsFor (state_of fresh).faults (faults_left e.1)
        (IsFullLeft e.1) (IsBlankFile (state_of fresh).page_size (image fresh)) e.0) }
    ensures unharmed { IfErr result (λ e. IsCleanLeft e.1 → IsTrue (state_of fresh).is_clean × LeavesMade fresh e.1) }
{
    let store = match made(fresh) {
        Ok(store) => store,
        Err((error, left)) => return Err((error, Leftover::Unopened(left))),
    };
    match Connection::over(alloc, store) {
        Ok(connection) => Ok(connection),
        Err((error, store)) => Err((new_error(error), Leftover::Store(store))),
    }
}

/// A connection to the database that the files hold, or to an empty one that is begun where they hold none; what is
/// left of the files where that fails. What a stop leaves of a beginning is taken for none.
pub fn connected<D: Disk + Drop>(
    alloc: Global,
    mut files: Files<D>,
    options: Options,
) -> Result<Connection<FileStore<D>>, (Error, Leftover<D>)>
    requires log { IsTrue (D.Disk.is_usable files.log) }
    requires db { IsTrue (D.Disk.is_usable files.db) }
    ensures named { IfErr result (λ e. IsTrue (is_open_error e.0)) }
    ensures opened { IfOk result (λ c. HasCleanDisk (file_state c) → IsOpened c) }
    ensures found { IfOk result (λ c. HasCleanDisk (file_state c) → FindsOrBegins files c) }
    ensures fresh { IfOk result IsNew }
    ensures cause { IfErr result (λ e. IsCleanLeft e.1 → FailsToConnect files e.1 e.0) }
    ensures unharmed { IfErr result (λ e. IsCleanLeft e.1 → LeavesFound files e.1) }
{
    let size = PageSize::new(PAGE_BYTES).unwrap();
    match probe_blank(alloc, &mut files, size, false) {
        Ok(false) => Connection::open_files(alloc, files, options),
        Ok(true) => match unopened(alloc, files, size, options) {
            Ok(fresh) => begun(alloc, fresh),
            Err(left) => Err((
                Error::SqliteFailure(ErrorCode::OutOfMemory),
                Leftover::Files(left),
            )),
        },
        Err(error) => Err((probe_error(&error), Leftover::Files(files))),
    }
}
