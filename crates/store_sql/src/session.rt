//! A connection, and what its failures have left.
ghost use Rattle.std.specs.Prelude.{◌≡◌, IsTrue, false};
ghost use Rattle.sqlite.specs.Held.{state};
ghost use Rattle.sqlite.specs.State.{HasCleanDisk, IsUnchanged, Survives};
ghost use Rattle.sqlite.specs.declared.error.Error.TheVariants.{SqliteFailure};
ghost use Rattle.sqlite.specs.declared.error.ErrorCode.TheVariants.{OutOfMemory};
ghost use Rattle.store.specs.declared.fault.StoreFault.TheVariants.{NoMemory};
ghost use Rattle.store_sql.specs.Judging.{IsRefusal, IsReported};

use sqlite::{Alter, Connection, Error, ErrorCode};
use store::StoreFault;
use store_sql_rows::ReadFault;

/// A connection, whether a failure has shut it, and how often the device or the database has failed.
#[derive(Drop)]
pub struct Session<S: Alter + Drop> {
    pub connection: Connection<S>,
    pub failures: u64,
    pub is_shut: bool,
}

// Whether a connection answers, so that a lack of memory has left it open.
fn answers<S: Alter>(connection: &mut Connection<S>) -> bool
    ensures mode { connection.old.in_transaction ≡ false → connection.new.in_transaction ≡ false }
    ensures unchanged { HasCleanDisk (state S.Store connection.new) → IsTrue result
        → IsUnchanged (state S.Store connection.old) (state S.Store connection.new) }
    ensures survives { Survives (state S.Store connection.old) (state S.Store connection.new) (λ _. ⊥) }
{
    connection.prepare("").is_ok()
}

impl<S: Alter + Drop> Session<S> {
    /// How an error of the database is reported: S1 where memory was refused and the connection goes on, else S2, which
    /// is counted and shuts the store.
    pub fn refuse(&mut self, error: Error) -> StoreFault
        ensures mode { self.old.connection.in_transaction ≡ false → self.new.connection.in_transaction ≡ false }
        ensures reported { IsRefusal S.Store self.old self.new result }
        ensures cause { result ≡ NoMemory → error ≡ SqliteFailure OutOfMemory }
        ensures survives { Survives (state S.Store self.old.connection) (state S.Store self.new.connection) (λ _. ⊥) }
    {
        let wants_memory = matches!(error, Error::SqliteFailure(ErrorCode::OutOfMemory));
        if answers(&mut self.connection) && wants_memory {
            return StoreFault::NoMemory;
        }
        self.failures = self.failures.saturating_add(1);
        self.is_shut = true;
        StoreFault::Failed
    }

    /// How the answer of a read is reported.
    pub fn tell<T: Drop>(&mut self, asked: Result<T, ReadFault>) -> Result<T, StoreFault>
        ensures mode { self.old.connection.in_transaction ≡ false → self.new.connection.in_transaction ≡ false }
        ensures reported { IsReported S.Store self.old self.new asked result }
        ensures survives { Survives (state S.Store self.old.connection) (state S.Store self.new.connection) (λ _. ⊥) }
    {
        match asked {
            Ok(value) => Ok(value),
            Err(ReadFault::BadRow) => Err(StoreFault::BadRow),
            Err(ReadFault::Sql(error)) => Err(self.refuse(error)),
        }
    }
}
