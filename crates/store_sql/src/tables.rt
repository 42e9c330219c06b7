//! Whether the rows of each table are a store's own.
ghost use Rattle.std.specs.Prelude.{◌≡◌, false, IsTrue, [], ◌∷◌};
ghost use Rattle.sqlite.specs.Held.{state};
ghost use Rattle.store_sql_rows.specs.Schema.{command_tree, desk_tree, imported_tree, panel_tree, place_tree, shown_tree};
ghost use Rattle.store_sql_rows.specs.Ours.{AreOwn, IsOne};
ghost use Rattle.store_sql.specs.Asking.{Asks, Joins};
ghost use Rattle.store_sql.specs.Fitting.{AreNumbered, IsAlone};
ghost use Rattle.store_sql.specs.Own.{TellsOf};

use crate::asking::{finds_none, neither_finds};
use sqlite::{Alter, Connection, Error};
use store_sql_rows::look;

fn desk_is_alone<S: Alter>(connection: &mut Connection<S>) -> Result<bool, Error>
    ensures mode { connection.old.in_transaction ≡ false → connection.new.in_transaction ≡ false }
    ensures asks { Asks (TellsOf desk_tree IsAlone) (state S.Store connection.old) (state S.Store connection.new) result }
{
    Ok(look(connection, "SELECT version, last FROM desk", &[])?.len() == 1)
}

fn desk_is_numbered<S: Alter>(connection: &mut Connection<S>) -> Result<bool, Error>
    ensures mode { connection.old.in_transaction ≡ false → connection.new.in_transaction ≡ false }
    ensures asks { Asks (TellsOf desk_tree AreNumbered) (state S.Store connection.old) (state S.Store connection.new) result }
{
    finds_none(
        connection,
        "SELECT 1 FROM desk WHERE typeof(rowid) <> 'integer'",
    )
}

#[tactic(auto, using(store_sql_rows::proofs::FailLemmas::fails_later, store_sql_rows::proofs::FailLemmas::fails_later_if))]
fn desk_is_one<S: Alter>(connection: &mut Connection<S>) -> Result<bool, Error>
    ensures mode { connection.old.in_transaction ≡ false → connection.new.in_transaction ≡ false }
    ensures asks { Asks (Joins (TellsOf desk_tree IsAlone) (TellsOf desk_tree AreNumbered)) (state S.Store connection.old)
        (state S.Store connection.new) result }
{
    if desk_is_alone(connection)? {
        desk_is_numbered(connection)
    } else {
        Ok(false)
    }
}

/// Whether `desk` has one row, which is numbered.
pub fn desk_is_own<S: Alter>(connection: &mut Connection<S>) -> Result<bool, Error>
    ensures mode { connection.old.in_transaction ≡ false → connection.new.in_transaction ≡ false }
    ensures asks { Asks (TellsOf desk_tree IsOne) (state S.Store connection.old) (state S.Store connection.new) result }
{
    desk_is_one(connection)
}

/// Whether the rows of the next numbers are a store's own.
pub fn panel_is_own<S: Alter>(connection: &mut Connection<S>) -> Result<bool, Error>
    ensures mode { connection.old.in_transaction ≡ false → connection.new.in_transaction ≡ false }
    ensures asks { Asks (TellsOf panel_tree (AreOwn (1 ∷ []))) (state S.Store connection.old) (state S.Store connection.new) result }
{
    neither_finds(
        connection,
        "SELECT 1 FROM panel WHERE typeof(rowid) <> 'integer'",
        "SELECT 1 FROM panel a, panel b WHERE a.rowid = b.rowid AND a.name IS NOT b.name",
    )
}

/// Whether the rows of the commands are a store's own.
pub fn command_is_own<S: Alter>(connection: &mut Connection<S>) -> Result<bool, Error>
    ensures mode { connection.old.in_transaction ≡ false → connection.new.in_transaction ≡ false }
    ensures asks { Asks (TellsOf command_tree (AreOwn (1 ∷ 2 ∷ []))) (state S.Store connection.old) (state S.Store connection.new) result }
{
    neither_finds(
        connection,
        "SELECT 1 FROM command WHERE typeof(rowid) <> 'integer'",
        "SELECT 1 FROM command a, command b WHERE a.rowid = b.rowid AND (a.panel IS NOT b.panel OR a.number IS NOT b.number)",
    )
}

/// Whether the rows of the places are a store's own.
pub fn place_is_own<S: Alter>(connection: &mut Connection<S>) -> Result<bool, Error>
    ensures mode { connection.old.in_transaction ≡ false → connection.new.in_transaction ≡ false }
    ensures asks { Asks (TellsOf place_tree (AreOwn (1 ∷ 2 ∷ []))) (state S.Store connection.old) (state S.Store connection.new) result }
{
    neither_finds(
        connection,
        "SELECT 1 FROM place WHERE typeof(rowid) <> 'integer'",
        "SELECT 1 FROM place a, place b WHERE a.rowid = b.rowid AND (a.point IS NOT b.point OR a.priority IS NOT b.priority)",
    )
}

/// Whether the rows of the shown values are a store's own.
pub fn shown_is_own<S: Alter>(connection: &mut Connection<S>) -> Result<bool, Error>
    ensures mode { connection.old.in_transaction ≡ false → connection.new.in_transaction ≡ false }
    ensures asks { Asks (TellsOf shown_tree (AreOwn (1 ∷ []))) (state S.Store connection.old) (state S.Store connection.new) result }
{
    neither_finds(
        connection,
        "SELECT 1 FROM shown WHERE typeof(rowid) <> 'integer'",
        "SELECT 1 FROM shown a, shown b WHERE a.rowid = b.rowid AND a.schedule IS NOT b.schedule",
    )
}

/// Whether the rows of the imported entries are a store's own.
pub fn imported_is_own<S: Alter>(connection: &mut Connection<S>) -> Result<bool, Error>
    ensures mode { connection.old.in_transaction ≡ false → connection.new.in_transaction ≡ false }
    ensures asks { Asks (TellsOf imported_tree (AreOwn (1 ∷ 2 ∷ []))) (state S.Store connection.old) (state S.Store connection.new) result }
{
    neither_finds(
        connection,
        "SELECT 1 FROM imported WHERE typeof(rowid) <> 'integer'",
        "SELECT 1 FROM imported a, imported b WHERE a.rowid = b.rowid AND (a.calendar IS NOT b.calendar OR a.entry IS NOT b.entry)",
    )
}
