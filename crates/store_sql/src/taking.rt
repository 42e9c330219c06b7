//! A database that has the six tables.
ghost use Rattle.std.specs.Prelude.{◌≡◌, ◌↔◌, ◌⊎◌, IfErr, IfOk, IsTrue, OnErr, OnOk, false};
ghost use Rattle.sqlite.specs.Held.{state};
ghost use Rattle.sqlite.specs.State.{HasCleanDisk, IsUnchanged, Survives};
ghost use Rattle.store_sql_rows.specs.Creating.{IsAsBefore};
ghost use Rattle.store_sql_rows.specs.Failing.{FailsFor};
ghost use Rattle.store_sql_rows.specs.Looking.{Rests};
ghost use Rattle.store_sql_rows.specs.Schema.{desk_schema};
ghost use Rattle.store_sql.specs.Opening.{IsCaused, IsFaultOf, IsFirst, IsFound, IsJudged, IsKnown, IsMigrated, IsRaised, IsSettled, IsShaped, IsTaken, as_version, is_sql};
ghost use Rattle.store_sql.specs.declared.refusal.Refusal.TheVariants.{NotOurs};

use crate::early::rows_to_drop;
use crate::own_rows::are_own;
use crate::raising::commit_raised;
use crate::refusal::Refusal;
use crate::version::version_of;
use sqlite::{Alter, Connection, Error};
use std::alloc::Global;
use store_sql_rows::{ReadFault, VERSION, has_desk_schema};

// The version before this one, with rows that this one drops.
const FIRST_VERSION: i64 = 1;

// Whether the connection is outside a transaction, over the schema of the six tables.
fn has_shape<S: Alter>(connection: &Connection<S>) -> bool
    ensures shaped { IsTrue result ↔ IsShaped (state S.Store connection.now) }
    ensures settled { IsTrue result → IsSettled (state S.Store connection.now) }
{
    // An open connection's database obeys its schema.
    let _schema = connection.schema();
    connection.is_autocommit() && has_desk_schema(connection)
}

// Whether the connection answers, so that it was open and is.
fn answers<S: Alter>(connection: &mut Connection<S>) -> Result<(), Error>
    ensures mode { connection.old.in_transaction ≡ false → connection.new.in_transaction ≡ false }
    ensures same { HasCleanDisk (state S.Store connection.new)
        → OnOk result (IsUnchanged (state S.Store connection.old) (state S.Store connection.new)) }
    ensures rests { HasCleanDisk (state S.Store connection.new) → Rests (state S.Store connection.old) (state S.Store connection.new) }
    ensures cause { HasCleanDisk (state S.Store connection.new) → (state S.Store connection.old).now.schema ≡ desk_schema
        → IfErr result (FailsFor (state S.Store connection.old) (state S.Store connection.new)) }
    ensures survives { Survives (state S.Store connection.old) (state S.Store connection.new) (λ _. ⊥) }
{
    connection.prepare("")?;
    Ok(())
}

// Whether the rows are as a store writes them.
fn rows_are_own<S: Alter>(connection: &mut Connection<S>) -> Result<bool, Error>
    requires shaped { IsShaped (state S.Store connection.old) }
    requires settled { IsSettled (state S.Store connection.old) }
    ensures mode { connection.new.in_transaction ≡ false }
    ensures judged { HasCleanDisk (state S.Store connection.new)
        → IfOk result (λ own. IsJudged own (state S.Store connection.old) (state S.Store connection.new)) }
    ensures kept { HasCleanDisk (state S.Store connection.new) → IsTrue (state S.Store connection.new).is_open
        → IsAsBefore (state S.Store connection.old) (state S.Store connection.new) }
    ensures cause { HasCleanDisk (state S.Store connection.new)
        → IfErr result (FailsFor (state S.Store connection.old) (state S.Store connection.new)) }
    ensures survives { Survives (state S.Store connection.old) (state S.Store connection.new) (λ _. ⊥) }
{
    answers(connection)?;
    are_own(connection)
}

// The answer of the query on the version as an opening says it.
fn as_version(asked: Result<i64, ReadFault>) -> Result<i64, Refusal>
    ensures { result ≡ as_version asked }
{
    match asked {
        Ok(version) => Ok(version),
        Err(ReadFault::Sql(error)) => Err(Refusal::Sql(error)),
        Err(ReadFault::BadRow) => Err(Refusal::NotOurs),
    }
}

// The version of a database that has the six tables, with rows as a store writes them.
fn find_version<S: Alter>(connection: &mut Connection<S>) -> Result<i64, Refusal>
    ensures known { HasCleanDisk (state S.Store connection.new) → IsKnown (state S.Store connection.old)
        → IfErr result (λ fault. IsTrue (is_sql fault)) }
    ensures faults { IfErr result (λ fault. IsTrue (is_sql fault) ⊎ (fault ≡ NotOurs)) }
    ensures was_outside { OnOk result (connection.old.in_transaction ≡ false) }
    ensures mode { OnOk result (connection.new.in_transaction ≡ false) }
    ensures found { HasCleanDisk (state S.Store connection.new)
        → IfOk result (λ version. IsFound version (state S.Store connection.old) (state S.Store connection.new)) }
    ensures kept { HasCleanDisk (state S.Store connection.new) → IsTrue (state S.Store connection.new).is_open
        → IsAsBefore (state S.Store connection.old) (state S.Store connection.new) }
    ensures cause { HasCleanDisk (state S.Store connection.new)
        → IfErr result (IsCaused (state S.Store connection.old) (state S.Store connection.new)) }
    ensures survives { Survives (state S.Store connection.old) (state S.Store connection.new) (λ _. ⊥) }
{
    if !has_shape(connection) {
        return Err(Refusal::NotOurs);
    }
    if !rows_are_own(connection)? {
        return Err(Refusal::NotOurs);
    }
    as_version(version_of(connection))
}

// Drops the early rows of the tables of the first version, and sets the version, in one transaction.
fn migrate<S: Alter>(alloc: Global, connection: &mut Connection<S>) -> Result<(), Refusal>
    requires { (state S.Store connection.old).in_transaction ≡ false }
    ensures mode { connection.new.in_transaction ≡ false }
    ensures fault { HasCleanDisk (state S.Store connection.new) → IsFirst (state S.Store connection.old)
        → IfErr result (IsFaultOf (state S.Store connection.old)) }
    ensures made { HasCleanDisk (state S.Store connection.new) → IsFirst (state S.Store connection.old)
        → OnOk result (IsMigrated (state S.Store connection.old) (state S.Store connection.new)) }
    ensures kept { HasCleanDisk (state S.Store connection.new) → IsFirst (state S.Store connection.old)
        → IsTrue (state S.Store connection.new).is_open
        → OnErr result (IsAsBefore (state S.Store connection.old) (state S.Store connection.new)) }
    ensures cause { HasCleanDisk (state S.Store connection.new) → IsFirst (state S.Store connection.old)
        → IfErr result (IsCaused (state S.Store connection.old) (state S.Store connection.new)) }
    ensures survives { Survives (state S.Store connection.old) (state S.Store connection.new) (λ trees. IsFirst
        (state S.Store connection.old)
        → IsRaised (state S.Store connection.old).committed.trees trees) }
{
    let dropped = rows_to_drop(alloc, connection)?;
    commit_raised(connection, &dropped)?;
    Ok(())
}

/// Takes a database whose tables are of this version, or of the first. From those of the first it drops each panel's
/// rows that are more than 1,000 below its next number, and a stop leaves the old tables or the new. It answers
/// `NotOurs` for another version or schema, for rows that share a number, and in a transaction.
pub fn take<S: Alter>(alloc: Global, connection: &mut Connection<S>) -> Result<(), Refusal>
    ensures mode { OnOk result (connection.new.in_transaction ≡ false) }
    ensures known { HasCleanDisk (state S.Store connection.new) → IsKnown (state S.Store connection.old)
        → IfErr result (IsFaultOf (state S.Store connection.old)) }
    ensures unknown { HasCleanDisk (state S.Store connection.new) → (IsKnown (state S.Store connection.old) → ⊥)
        → IfErr result (λ fault. IsTrue (is_sql fault) ⊎ (fault ≡ NotOurs)) }
    ensures was_known { HasCleanDisk (state S.Store connection.new) → OnOk result (IsKnown (state S.Store connection.old)) }
    ensures taken { HasCleanDisk (state S.Store connection.new)
        → OnOk result (IsTaken (state S.Store connection.old) (state S.Store connection.new) ⊎ IsMigrated
        (state S.Store connection.old) (state S.Store connection.new)) }
    ensures kept { HasCleanDisk (state S.Store connection.new) → IsTrue (state S.Store connection.new).is_open
        → OnErr result (IsAsBefore (state S.Store connection.old) (state S.Store connection.new)) }
    ensures cause { HasCleanDisk (state S.Store connection.new)
        → IfErr result (IsCaused (state S.Store connection.old) (state S.Store connection.new)) }
    ensures survives { Survives (state S.Store connection.old) (state S.Store connection.new)
        (λ trees. IsRaised (state S.Store connection.old).committed.trees trees) }
{
    match find_version(connection)? {
        VERSION => Ok(()),
        FIRST_VERSION => migrate(alloc, connection),
        _ => Err(Refusal::NotOurs),
    }
}
