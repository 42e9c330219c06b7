//! The six tables in an empty database.
ghost use Rattle.std.specs.Prelude.{◌≡◌, ◌↔◌, ◌⊎◌, Err, IfErr, IsTrue, OnErr, OnOk, false};
ghost use Rattle.sqlite.specs.Effect.{IsDatabase};
ghost use Rattle.sqlite.specs.Held.{state};
ghost use Rattle.sqlite.specs.State.{HasCleanDisk, Survives};
ghost use Rattle.store_sql_rows.specs.Creating.{AreFirst, IsAsBefore, IsMade};
ghost use Rattle.store_sql_rows.specs.Failing.{FailsFor};
ghost use Rattle.store_sql.specs.Opening.{IsBare, IsBegun, IsCaused, is_sql};
ghost use Rattle.store_sql.specs.declared.refusal.Refusal.TheVariants.{NotOurs};

use crate::refusal::Refusal;
use sqlite::{Alter, Connection, Error};
use store_sql_rows::{has_no_schema, make_tables};

/// Whether the connection is outside a transaction, over a database in which nothing is.
pub fn is_bare<S: Alter>(connection: &Connection<S>) -> bool
    ensures { IsTrue result ↔ IsBare (state S.Store connection.now) }
{
    connection.is_autocommit() && has_no_schema(connection)
}

// Makes the tables where nothing is.
fn make_all<S: Alter>(connection: &mut Connection<S>) -> Result<(), Error>
    requires { IsBare (state S.Store connection.old) }
    ensures mode { connection.new.in_transaction ≡ false }
    ensures made { HasCleanDisk (state S.Store connection.new) → OnOk result (IsBegun (state S.Store connection.new)) }
    ensures kept { HasCleanDisk (state S.Store connection.new) → IsTrue (state S.Store connection.new).is_open
        → OnErr result (IsAsBefore (state S.Store connection.old) (state S.Store connection.new)) }
    ensures cause { HasCleanDisk (state S.Store connection.new)
        → IfErr result (FailsFor (state S.Store connection.old) (state S.Store connection.new)) }
    ensures survives { Survives (state S.Store connection.old) (state S.Store connection.new) (λ trees. AreFirst trees) }
{
    make_tables(connection)?;
    // An open connection's database obeys its schema.
    let _schema = connection.schema();
    Ok(())
}

/// Makes the six tables in an empty database. It answers `NotOurs` where, and only where, the connection is in a
/// transaction or something is in the database.
pub fn make<S: Alter>(connection: &mut Connection<S>) -> Result<(), Refusal>
    ensures mode { OnOk result (connection.new.in_transaction ≡ false) }
    ensures made { HasCleanDisk (state S.Store connection.new) → OnOk result (IsBegun (state S.Store connection.new)) }
    ensures bare { OnOk result (IsBare (state S.Store connection.old)) }
    ensures faults { IfErr result (λ fault. IsTrue (is_sql fault) ⊎ (fault ≡ NotOurs)) }
    ensures not_ours { (result ≡ Err NotOurs) ↔ (IsBare (state S.Store connection.old) → ⊥) }
    ensures kept { HasCleanDisk (state S.Store connection.new) → IsTrue (state S.Store connection.new).is_open
        → OnErr result (IsAsBefore (state S.Store connection.old) (state S.Store connection.new)) }
    ensures cause { HasCleanDisk (state S.Store connection.new)
        → IfErr result (IsCaused (state S.Store connection.old) (state S.Store connection.new)) }
    ensures survives { Survives (state S.Store connection.old) (state S.Store connection.new) (λ trees. AreFirst trees) }
{
    if !is_bare(connection) {
        return Err(Refusal::NotOurs);
    }
    make_all(connection)?;
    Ok(())
}
