//! A statement in a transaction.
ghost use Rattle.std.specs.Prelude.{◌≡◌, false, Err};
ghost use Rattle.std.specs.Bool.{IsTrue};
ghost use Rattle.sqlite.specs.Held.{state};
ghost use Rattle.sqlite.specs.State.{ExecutesInside, HasCleanDisk, KeepsCommit, Survives};
ghost use Rattle.sqlite.specs.Values.{bound};

use sqlite::types::ValueRef;
use sqlite::{Alter, Error, ErrorCode, Transaction};

/// Runs a statement in a transaction.
pub fn run<S: Alter>(
    transaction: &mut Transaction<'_, S>,
    sql: &str,
    params: &[ValueRef<'_>],
) -> Result<usize, Error>
    ensures same_reference { transaction.new.conn.ghost_name ≡ transaction.old.conn.ghost_name }
    ensures ended { (state S.Store transaction.old.conn.now).in_transaction ≡ false
        → result ≡ Err (Error.SqliteFailure ErrorCode.TransactionState) }
    ensures runs { HasCleanDisk (state S.Store transaction.new.conn.now)
        → IsTrue (state S.Store transaction.old.conn.now).in_transaction
        → ExecutesInside 0 sql.now (bound params.now) (state S.Store transaction.old.conn.now)
        (state S.Store transaction.new.conn.now) result }
    ensures kept { HasCleanDisk (state S.Store transaction.new.conn.now)
        → KeepsCommit (state S.Store transaction.old.conn.now) (state S.Store transaction.new.conn.now) }
    ensures survives { Survives (state S.Store transaction.old.conn.now) (state S.Store transaction.new.conn.now) (λ _. ⊥) }
{
    transaction.execute(sql, params)
}
