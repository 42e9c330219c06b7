//! The tables of the first version as those of the second.
ghost use Rattle.std.specs.Prelude.{◌≡◌, IfErr, IsTrue, OnErr, OnOk, false};
ghost use Rattle.sqlite.specs.Held.{state};
ghost use Rattle.sqlite.specs.State.{HasCleanDisk, Survives};
ghost use Rattle.store_sql_rows.specs.Failing.{FailsFor};
ghost use Rattle.store_sql_rows.specs.Ours.{IsOurs};
ghost use Rattle.store_sql_rows.specs.Steps.{FailsInside, Moves};
ghost use Rattle.store_sql.specs.Committed.{ShowsCommitted};
ghost use Rattle.store_sql.specs.Opening.{IsChangedBy, IsWritten, Raises, SetsVersion};

use crate::writing::drop_all;
use sqlite::{Alter, Connection, Error, Transaction};
use store::RowsBelow;

// Sets the version to 2.
fn set_version<S: Alter>(transaction: &mut Transaction<'_, S>) -> Result<usize, Error>
    ensures moves { Moves S.Store SetsVersion transaction.old.conn transaction.new.conn result }
    ensures cause { FailsInside S.Store transaction.old.conn transaction.new.conn result }
{
    transaction.execute("UPDATE desk SET version = 2", &[])
}

// Drops rows, and then sets the version.
fn raise<S: Alter>(transaction: &mut Transaction<'_, S>, dropped: &[RowsBelow]) -> Result<(), Error>
    ensures moves { Moves S.Store (Raises dropped.now) transaction.old.conn transaction.new.conn result }
    ensures cause { FailsInside S.Store transaction.old.conn transaction.new.conn result }
{
    drop_all(transaction, dropped)?;
    set_version(transaction)?;
    Ok(())
}

/// Commits that rows are dropped, and the version 2, or nothing of it.
pub fn commit_raised<S: Alter>(
    connection: &mut Connection<S>,
    dropped: &[RowsBelow],
) -> Result<(), Error>
    requires { (state S.Store connection.old).in_transaction ≡ false }
    ensures mode { (state S.Store connection.new).in_transaction ≡ false }
    ensures made { HasCleanDisk (state S.Store connection.new) → IsOurs (state S.Store connection.old).now
        → OnOk result (IsWritten dropped.now (state S.Store connection.old) (state S.Store connection.new)) }
    ensures undone { HasCleanDisk (state S.Store connection.new) → IsTrue (state S.Store connection.new).is_open
        → OnErr result (ShowsCommitted (state S.Store connection.old) (state S.Store connection.new)) }
    ensures cause { HasCleanDisk (state S.Store connection.new) → IsOurs (state S.Store connection.old).now
        → IfErr result (FailsFor (state S.Store connection.old) (state S.Store connection.new)) }
    ensures survives { Survives (state S.Store connection.old) (state S.Store connection.new) (λ trees. IsOurs
        (state S.Store connection.old).now
        → IsChangedBy dropped.now (state S.Store connection.old).now.trees trees) }
{
    let mut transaction = connection.transaction();
    raise(&mut transaction, dropped)?;
    let committed = transaction.commit();
    // Outside a transaction the connection shows what is committed.
    let _settled = connection.is_autocommit();
    committed
}
