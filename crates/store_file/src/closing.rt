//! The end of a store in the database of a file and its log.
ghost use Rattle.std.specs.Prelude.{◌≡◌, ◌⊎◌, IfErr, IfOk, IsTrue};
ghost use Rattle.sqlite_trees.specs.Tree.{Trees};
ghost use Rattle.sqlite_trees.specs.View.{IsClean};
ghost use Rattle.sqlite_trees.specs.declared.error.StoreError.TheVariants.{OutOfMemory};
ghost use Rattle.sqlite_store.specs.FileStore.{recovers, view};
ghost use Rattle.sqlite_wal.specs.Reads.{AreClean};
ghost use Rattle.sqlite.specs.Files.{over_files};
ghost use Rattle.sqlite.specs.Held.{AreDatabases};
ghost use Rattle.store.specs.declared.fault.StoreFault.TheVariants.{Failed, NoMemory};
ghost use Rattle.store_sql_rows.specs.Ours.{content_of};
ghost use Rattle.store_sql.specs.Standing.{standing_of};
ghost use Rattle.store_file.specs.Closed.{IsAtRest, Rests};

use sqlite::{FileStore, Files};
use sqlite_disk::Disk;
use sqlite_trees::error::StoreError;
use sqlite_trees::store::Store;
use store::StoreFault;
use store_sql::SqlStore;

/// How a close that failed is reported: S1 for lack of memory, else S2.
fn fault_of_close(error: StoreError) -> StoreFault
    ensures no_memory { error ≡ OutOfMemory → result ≡ NoMemory }
    ensures failed { (error ≡ OutOfMemory → ⊥) → result ≡ Failed }
    ensures either { (result ≡ NoMemory) ⊎ (result ≡ Failed) }
{
    match error {
        StoreError::OutOfMemory => StoreFault::NoMemory,
        _ => StoreFault::Failed,
    }
}

/// Copies the log of a database into its file, and gives both files back. What is not committed is lost.
fn rested<D: Disk + Drop>(file: FileStore<D>) -> Result<Files<D>, (StoreFault, FileStore<D>)>
    requires numbered { IsClean (view file) → IsTrue (view file).is_numbered }
    requires sound { IsClean (view file) → AreDatabases (recovers file) }
    ensures log { IfOk result (λ files. IsTrue (D.Disk.is_usable files.log)) }
    ensures db { IfOk result (λ files. IsTrue (D.Disk.is_usable files.db)) }
    ensures rests { IfOk result (λ files. AreClean D.Disk files.log files.db → Rests D.Disk files (view file).committed) }
    ensures honest { IfOk result (λ files. AreClean D.Disk files.log files.db → IsClean (view file) × IsTrue (view file).is_open) }
    ensures reported { IfErr result (λ left. (left.0 ≡ NoMemory) ⊎ (left.0 ≡ Failed)) }
    ensures kept { IfErr result (λ left. (db : Trees) → recovers left.1 db → recovers file db) }
{
    let mut file = file;
    // for what only this store's rollback says of the log
    file.rollback();
    match file.checkpoint() {
        Ok(()) => Ok(file.close()),
        Err(error) => Err((fault_of_close(error), file)),
    }
}

/// Closes a store: what its log holds is copied into the database file, which holds the tables alone then. Where that
/// fails nothing is lost: what a stop leaves, in the midst of it or after it, it could leave before.
pub fn closed<D: Disk + Drop>(
    store: SqlStore<FileStore<D>>,
) -> Result<Files<D>, (StoreFault, FileStore<D>)>
    ensures log { IfOk result (λ files. IsTrue (D.Disk.is_usable files.log)) }
    ensures db { IfOk result (λ files. IsTrue (D.Disk.is_usable files.db)) }
    ensures at_rest { IfOk result (λ files. AreClean D.Disk files.log files.db
        → IsAtRest D.Disk files (standing_of over_files store).content) }
    ensures honest { IfOk result (λ files. AreClean D.Disk files.log files.db → (standing_of over_files store).is_honest) }
    ensures reported { IfErr result (λ left. (left.0 ≡ NoMemory) ⊎ (left.0 ≡ Failed)) }
    ensures kept { IfErr result (λ left. (db : Trees) → recovers left.1 db
        → (standing_of over_files store).may_leave (content_of db)) }
{
    rested(store.into_connection().into_store())
}
