//! A statement that only reads.
ghost use Rattle.std.specs.Prelude.{◌≡◌, false, IfErr, IfOk, OnOk};
ghost use Rattle.sqlite.specs.Given.{IsPlain};
ghost use Rattle.sqlite.specs.Held.{state};
ghost use Rattle.sqlite.specs.Listing.{reads_listing, understood};
ghost use Rattle.sqlite.specs.State.{FailsToQuery, HasCleanDisk, IsUnchanged, KeepsCommit, Shown, Survives};
ghost use Rattle.sqlite.specs.Values.{bound};
ghost use Rattle.store_sql_rows.specs.Failing.{IsSure};
ghost use Rattle.store_sql_rows.specs.Schema.{desk_schema};
ghost use Rattle.store_sql_rows.specs.Looking.{Leaves, Rests, ShowsInside};
ghost use Rattle.store_sql_rows.specs.Ours.{IsInside};

use crate::running::run;
use sqlite::types::ValueRef;
use sqlite::{Alter, Connection, Error, Row, Transaction};

/// The answer of a query, outside a transaction.
pub fn look<S: Alter>(
    connection: &mut Connection<S>,
    sql: &str,
    params: &[ValueRef<'_>],
) -> Result<Vec<Row>, Error>
    ensures mode { connection.old.in_transaction ≡ false → connection.new.in_transaction ≡ false }
    ensures shown { HasCleanDisk (state S.Store connection.new)
        → IfOk result
        (λ rows. Shown sql.now (bound params.now) (state S.Store connection.old) (state S.Store connection.new) rows.items) }
    ensures refused { HasCleanDisk (state S.Store connection.new)
        → IfErr result (FailsToQuery sql.now (bound params.now) (state S.Store connection.old) (state S.Store connection.new)) }
    ensures same { HasCleanDisk (state S.Store connection.new)
        → IsPlain (understood (state S.Store connection.old).now.schema sql.now)
        → OnOk result (IsUnchanged (state S.Store connection.old) (state S.Store connection.new)) }
    ensures rests { HasCleanDisk (state S.Store connection.new)
        → IsPlain (understood (state S.Store connection.old).now.schema sql.now)
        → Rests (state S.Store connection.old) (state S.Store connection.new) }
    ensures survives { Survives (state S.Store connection.old) (state S.Store connection.new) (λ _. IsPlain
        (understood (state S.Store connection.old).now.schema sql.now)
        → ⊥) }
{
    connection.query_all(sql, params)
}

/// The answer of a query on the six tables, outside a transaction.
pub(crate) fn ask<S: Alter>(
    connection: &mut Connection<S>,
    sql: &str,
    params: &[ValueRef<'_>],
) -> Result<Vec<Row>, Error>
    requires { IsSure sql.now (bound params.now) }
    ensures shown { HasCleanDisk (state S.Store connection.new)
        → IfOk result
        (λ rows. Shown sql.now (bound params.now) (state S.Store connection.old) (state S.Store connection.new) rows.items) }
    ensures leaves { Leaves (state S.Store connection.old) (state S.Store connection.new) result }
{
    look(connection, sql, params)
}

/// The answer of a query on the six tables, in a transaction; a transaction that a failure ended refuses it.
pub(crate) fn ask_inside<S: Alter>(
    transaction: &mut Transaction<'_, S>,
    sql: &str,
    params: &[ValueRef<'_>],
) -> Result<Vec<Row>, Error>
    requires plain { IsPlain (understood desk_schema sql.now) }
    requires unlisted { reads_listing desk_schema sql.now ≡ false }
    ensures same_reference { transaction.new.conn.ghost_name ≡ transaction.old.conn.ghost_name }
    ensures shown { HasCleanDisk (state S.Store transaction.new.conn.now) → IsInside (state S.Store transaction.old.conn.now)
        → IfOk result (λ rows. ShowsInside sql.now (bound params.now) (state S.Store transaction.old.conn.now)
        (state S.Store transaction.new.conn.now) rows.items) }
    ensures kept { HasCleanDisk (state S.Store transaction.new.conn.now)
        → KeepsCommit (state S.Store transaction.old.conn.now) (state S.Store transaction.new.conn.now) }
    ensures survives { Survives (state S.Store transaction.old.conn.now) (state S.Store transaction.new.conn.now) (λ _. ⊥) }
{
    // A query alone would be answered behind the end too.
    run(transaction, "", &[])?;
    transaction.query_all(sql, params)
}
