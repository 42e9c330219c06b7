//! How are the desk's tables made? Each statement stands alone, within a transaction.

ghost use Rattle.std.specs.Prelude.{◌≡◌, IfErr, IsTrue, OnOk, OnErr, false};
ghost use Rattle.sqlite.specs.Held.{state};
ghost use Rattle.sqlite.specs.State.{HasCleanDisk, Survives};
ghost use Rattle.store_sql_rows.specs.Schema.{schema_0, schema_1, schema_2, schema_3, schema_4, schema_5, desk_schema};
ghost use Rattle.store_sql_rows.specs.Failing.{FailsFor};
ghost use Rattle.store_sql_rows.specs.Creating.{IsInside, IsStep, MakesTableIn, IsEmptyAs, IsFilled, IsMade, IsAsBefore, AreFirst};

use sqlite::{Alter, Connection, Error, Transaction};

/// The version of the tables, which `first_row` writes.
pub const VERSION: i64 = 2;

/// Makes the table `desk`.
fn make_desk<S: Alter>(tx: &mut Transaction<'_, S>) -> Result<usize, Error>
    ensures same_reference { tx.new.conn.ghost_name ≡ tx.old.conn.ghost_name }
    ensures steps { IsStep (IsInside schema_0) (MakesTableIn schema_0 schema_1) (state S.Store tx.old.conn.now)
        (state S.Store tx.new.conn.now) result }
{
    tx.execute(
        "CREATE TABLE desk (id INTEGER PRIMARY KEY CHECK (id = 1), version INTEGER NOT NULL, last INTEGER) STRICT",
        &[],
    )
}

/// Makes the table `panel`.
fn make_panel<S: Alter>(tx: &mut Transaction<'_, S>) -> Result<usize, Error>
    ensures same_reference { tx.new.conn.ghost_name ≡ tx.old.conn.ghost_name }
    ensures steps { IsStep (IsInside schema_1) (MakesTableIn schema_1 schema_2) (state S.Store tx.old.conn.now)
        (state S.Store tx.new.conn.now) result }
{
    tx.execute(
        "CREATE TABLE panel (name TEXT PRIMARY KEY NOT NULL, next INTEGER NOT NULL CHECK (next >= 1)) STRICT",
        &[],
    )
}

/// Makes the table `command`.
fn make_command<S: Alter>(tx: &mut Transaction<'_, S>) -> Result<usize, Error>
    ensures same_reference { tx.new.conn.ghost_name ≡ tx.old.conn.ghost_name }
    ensures steps { IsStep (IsInside schema_2) (MakesTableIn schema_2 schema_3) (state S.Store tx.old.conn.now)
        (state S.Store tx.new.conn.now) result }
{
    tx.execute(
        "CREATE TABLE command (panel TEXT NOT NULL, number INTEGER NOT NULL, point TEXT NOT NULL, priority INTEGER NOT NULL, value INTEGER, state INTEGER NOT NULL CHECK (state >= 0 AND state <= 2), a INTEGER, b INTEGER, PRIMARY KEY (panel, number)) STRICT",
        &[],
    )
}

/// Makes the table `place`.
fn make_place<S: Alter>(tx: &mut Transaction<'_, S>) -> Result<usize, Error>
    ensures same_reference { tx.new.conn.ghost_name ≡ tx.old.conn.ghost_name }
    ensures steps { IsStep (IsInside schema_3) (MakesTableIn schema_3 schema_4) (state S.Store tx.old.conn.now)
        (state S.Store tx.new.conn.now) result }
{
    tx.execute(
        "CREATE TABLE place (point TEXT NOT NULL, priority INTEGER NOT NULL CHECK (priority >= 1 AND priority <= 16), value INTEGER NOT NULL, PRIMARY KEY (point, priority)) STRICT",
        &[],
    )
}

/// Makes the table `shown`.
fn make_shown<S: Alter>(tx: &mut Transaction<'_, S>) -> Result<usize, Error>
    ensures same_reference { tx.new.conn.ghost_name ≡ tx.old.conn.ghost_name }
    ensures steps { IsStep (IsInside schema_4) (MakesTableIn schema_4 schema_5) (state S.Store tx.old.conn.now)
        (state S.Store tx.new.conn.now) result }
{
    tx.execute(
        "CREATE TABLE shown (schedule TEXT PRIMARY KEY NOT NULL, value INTEGER) STRICT",
        &[],
    )
}

/// Makes the table `imported`.
fn make_imported<S: Alter>(tx: &mut Transaction<'_, S>) -> Result<usize, Error>
    ensures same_reference { tx.new.conn.ghost_name ≡ tx.old.conn.ghost_name }
    ensures steps { IsStep (IsInside schema_5) (MakesTableIn schema_5 desk_schema) (state S.Store tx.old.conn.now)
        (state S.Store tx.new.conn.now) result }
{
    tx.execute(
        "CREATE TABLE imported (calendar TEXT NOT NULL, entry TEXT NOT NULL, PRIMARY KEY (calendar, entry)) STRICT",
        &[],
    )
}

/// Writes the row of `desk`, with the version.
fn first_row<S: Alter>(tx: &mut Transaction<'_, S>) -> Result<usize, Error>
    ensures same_reference { tx.new.conn.ghost_name ≡ tx.old.conn.ghost_name }
    ensures steps { IsStep (IsEmptyAs desk_schema) (λ _. IsFilled) (state S.Store tx.old.conn.now)
        (state S.Store tx.new.conn.now) result }
{
    tx.execute(
        "INSERT INTO desk (id, version, last) VALUES (1, 2, NULL)",
        &[],
    )
}

/// Makes the tables `desk`, `panel` and `command`.
#[tactic(auto, using(crate::proofs::CreateLemmas::survives_on, crate::proofs::CreateLemmas::keeps_on, crate::proofs::CreateLemmas::clean_before, crate::proofs::FailLemmas::fails_later, crate::proofs::CreateLemmas::empty_desk, crate::proofs::CreateLemmas::empty_panel, crate::proofs::CreateLemmas::empty_command))]
fn make_first_three<S: Alter>(tx: &mut Transaction<'_, S>) -> Result<(), Error>
    ensures same_reference { tx.new.conn.ghost_name ≡ tx.old.conn.ghost_name }
    ensures steps { IsStep (IsInside schema_0) (λ _. IsEmptyAs schema_3) (state S.Store tx.old.conn.now)
        (state S.Store tx.new.conn.now) result }
{
    make_desk(tx)?;
    make_panel(tx)?;
    make_command(tx)?;
    Ok(())
}

/// Makes the tables `place`, `shown` and `imported`.
#[tactic(auto, using(crate::proofs::CreateLemmas::survives_on, crate::proofs::CreateLemmas::keeps_on, crate::proofs::CreateLemmas::clean_before, crate::proofs::FailLemmas::fails_later, crate::proofs::CreateLemmas::empty_place, crate::proofs::CreateLemmas::empty_shown, crate::proofs::CreateLemmas::empty_imported))]
fn make_last_three<S: Alter>(tx: &mut Transaction<'_, S>) -> Result<(), Error>
    ensures same_reference { tx.new.conn.ghost_name ≡ tx.old.conn.ghost_name }
    ensures steps { IsStep (IsEmptyAs schema_3) (λ _. IsEmptyAs desk_schema) (state S.Store tx.old.conn.now)
        (state S.Store tx.new.conn.now) result }
{
    make_place(tx)?;
    make_shown(tx)?;
    make_imported(tx)?;
    Ok(())
}

/// Asks the empty text, which is kept under the schema as it is from then on: so whether a connection still answers can
/// be asked without memory.
#[tactic(auto, using(crate::proofs::CreateLemmas::asked_keeps, crate::proofs::CreateLemmas::asked_stays, crate::proofs::CreateLemmas::asked_filled))]
fn ask_nothing<S: Alter>(tx: &mut Transaction<'_, S>) -> Result<(), Error>
    ensures same_reference { tx.new.conn.ghost_name ≡ tx.old.conn.ghost_name }
    ensures steps { IsStep IsFilled (λ _. IsFilled) (state S.Store tx.old.conn.now)
        (state S.Store tx.new.conn.now) result }
{
    tx.prepare("")?;
    Ok(())
}

/// Makes the six tables, and writes the row of `desk`.
#[tactic(auto, using(crate::proofs::CreateLemmas::survives_on, crate::proofs::CreateLemmas::keeps_on, crate::proofs::CreateLemmas::clean_before, crate::proofs::FailLemmas::fails_later, crate::proofs::FailLemmas::fails_later_if))]
fn fill<S: Alter>(tx: &mut Transaction<'_, S>) -> Result<(), Error>
    ensures same_reference { tx.new.conn.ghost_name ≡ tx.old.conn.ghost_name }
    ensures steps { IsStep (IsInside schema_0) (λ _. IsFilled) (state S.Store tx.old.conn.now)
        (state S.Store tx.new.conn.now) result }
{
    make_first_three(tx)?;
    make_last_three(tx)?;
    first_row(tx)?;
    ask_nothing(tx)
}

/// Makes the six tables in one transaction.
#[tactic(auto, using(crate::proofs::CreateLemmas::gone_back, crate::proofs::CreateLemmas::not_committed, crate::proofs::CreateLemmas::clean_before))]
pub fn make_tables<S: Alter>(conn: &mut Connection<S>) -> Result<(), Error>
    requires { (state S.Store conn.old).in_transaction ≡ false }
    ensures mode { (state S.Store conn.new).in_transaction ≡ false }
    ensures made { HasCleanDisk (state S.Store conn.new) → (state S.Store conn.old).now.schema ≡ schema_0
        → OnOk result (IsMade (state S.Store conn.old) (state S.Store conn.new)) }
    ensures kept { HasCleanDisk (state S.Store conn.new) → IsTrue (state S.Store conn.new).is_open
        → OnErr result (IsAsBefore (state S.Store conn.old) (state S.Store conn.new)) }
    ensures cause { HasCleanDisk (state S.Store conn.new) → (state S.Store conn.old).now.schema ≡ schema_0
        → IfErr result (FailsFor (state S.Store conn.old) (state S.Store conn.new)) }
    ensures survives { Survives (state S.Store conn.old) (state S.Store conn.new) (λ trees. (state S.Store conn.old).now.schema ≡
        schema_0
        → AreFirst trees) }
{
    // outside a transaction the connection shows what is committed
    let _settled = conn.is_autocommit();
    let mut tx = conn.transaction();
    fill(&mut tx)?;
    tx.commit()
}
