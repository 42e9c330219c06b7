//! A whole change in one transaction.
ghost use Rattle.std.specs.Prelude.{◌≡◌, IsTrue, OnErr, OnOk, false};
ghost use Rattle.sqlite.specs.Held.{state};
ghost use Rattle.sqlite.specs.State.{HasCleanDisk, Survives};
ghost use Rattle.store.specs.Change.{CanStand, with_change};
ghost use Rattle.store_sql_rows.specs.Ours.{IsOurs, Makes, kept_in};
ghost use Rattle.store_sql.specs.Committed.{IsCommitted, ShowsCommitted};

use crate::writing::write;
use sqlite::{Alter, Connection, Error};
use std::alloc::Global;
use store::Change;
use store_sql_rows::RowNumbers;

/// Commits a whole change, or nothing of it.
pub(crate) fn commit_change<S: Alter>(
    alloc: Global,
    connection: &mut Connection<S>,
    numbers: &mut RowNumbers,
    change: &Change,
) -> Result<(), Error>
    requires can_stand { CanStand change.now }
    requires mode { (state S.Store connection.old).in_transaction ≡ false }
    ensures mode { (state S.Store connection.new).in_transaction ≡ false }
    ensures made { HasCleanDisk (state S.Store connection.new) → IsOurs (state S.Store connection.old).now
        → OnOk result (IsCommitted change.now (state S.Store connection.old) (state S.Store connection.new)) }
    ensures undone { HasCleanDisk (state S.Store connection.new) → IsTrue (state S.Store connection.new).is_open
        → OnErr result (ShowsCommitted (state S.Store connection.old) (state S.Store connection.new)) }
    ensures was_open { HasCleanDisk (state S.Store connection.new) → IsTrue (state S.Store connection.new).is_open
        → IsTrue (state S.Store connection.old).is_open }
    ensures survives { Survives (state S.Store connection.old) (state S.Store connection.new) (λ trees. IsOurs
        (state S.Store connection.old).now
        → Makes (with_change change.now) (kept_in (state S.Store connection.old).now.trees) (kept_in trees)) }
{
    let mut transaction = connection.transaction();
    write(alloc, &mut transaction, numbers, change)?;
    let committed = transaction.commit();
    // Outside a transaction the connection shows what is committed.
    let _settled = connection.is_autocommit();
    committed
}
