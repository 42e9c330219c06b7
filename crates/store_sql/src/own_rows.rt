//! Whether the rows of an opened database are such as a store writes: no query changes a row, and each table is asked
//! whether a row has no number, and whether two rows of two keys share one.
ghost use Rattle.std.specs.Prelude.{◌≡◌, ◌↔◌, false, IfErr, IfOk, OnOk, IsTrue, [], ◌∷◌};
ghost use Rattle.sqlite.specs.Held.{state};
ghost use Rattle.sqlite.specs.State.{HasCleanDisk, IsUnchanged, Survives};
ghost use Rattle.store_sql_rows.specs.Schema.{command_tree, desk_tree, imported_tree, panel_tree, place_tree, shown_tree};
ghost use Rattle.store_sql_rows.specs.Failing.{FailsFor};
ghost use Rattle.store_sql_rows.specs.Looking.{Rests};
ghost use Rattle.store_sql_rows.specs.Ours.{AreOurs, AreOwn, IsOne, kept_in};
ghost use Rattle.store_sql.specs.Fitting.{IsFitting};
ghost use Rattle.store_sql.specs.Asking.{Asks, Joins};
ghost use Rattle.store_sql.specs.Own.{TellsOf};

use crate::tables::{
    command_is_own, desk_is_own, imported_is_own, panel_is_own, place_is_own, shown_is_own,
};
use sqlite::{Alter, Connection, Error};

#[tactic(auto, using(store_sql_rows::proofs::FailLemmas::fails_later, store_sql_rows::proofs::FailLemmas::fails_later_if))]
fn first_are_own<S: Alter>(connection: &mut Connection<S>) -> Result<bool, Error>
    ensures mode { connection.old.in_transaction ≡ false → connection.new.in_transaction ≡ false }
    ensures asks { Asks (Joins (TellsOf desk_tree IsOne) (TellsOf panel_tree (AreOwn (1 ∷ [])))) (state S.Store connection.old)
        (state S.Store connection.new) result }
{
    if desk_is_own(connection)? {
        panel_is_own(connection)
    } else {
        Ok(false)
    }
}

#[tactic(auto, using(store_sql_rows::proofs::FailLemmas::fails_later, store_sql_rows::proofs::FailLemmas::fails_later_if))]
fn next_are_own<S: Alter>(connection: &mut Connection<S>) -> Result<bool, Error>
    ensures mode { connection.old.in_transaction ≡ false → connection.new.in_transaction ≡ false }
    ensures asks { Asks (Joins (TellsOf command_tree (AreOwn (1 ∷ 2 ∷ []))) (TellsOf place_tree (AreOwn (1 ∷ 2 ∷ []))))
        (state S.Store connection.old) (state S.Store connection.new) result }
{
    if command_is_own(connection)? {
        place_is_own(connection)
    } else {
        Ok(false)
    }
}

#[tactic(auto, using(store_sql_rows::proofs::FailLemmas::fails_later, store_sql_rows::proofs::FailLemmas::fails_later_if))]
fn last_are_own<S: Alter>(connection: &mut Connection<S>) -> Result<bool, Error>
    ensures mode { connection.old.in_transaction ≡ false → connection.new.in_transaction ≡ false }
    ensures asks { Asks (Joins (TellsOf shown_tree (AreOwn (1 ∷ []))) (TellsOf imported_tree (AreOwn (1 ∷ 2 ∷ []))))
        (state S.Store connection.old) (state S.Store connection.new) result }
{
    if shown_is_own(connection)? {
        imported_is_own(connection)
    } else {
        Ok(false)
    }
}

#[tactic(auto, using(store_sql_rows::proofs::FailLemmas::fails_later, store_sql_rows::proofs::FailLemmas::fails_later_if))]
fn others_are_own<S: Alter>(connection: &mut Connection<S>) -> Result<bool, Error>
    ensures mode { connection.old.in_transaction ≡ false → connection.new.in_transaction ≡ false }
    ensures asks { Asks (Joins (Joins (TellsOf command_tree (AreOwn (1 ∷ 2 ∷ []))) (TellsOf place_tree (AreOwn (1 ∷ 2 ∷ []))))
        (Joins (TellsOf shown_tree (AreOwn (1 ∷ []))) (TellsOf imported_tree (AreOwn (1 ∷ 2 ∷ []))))) (state S.Store
        connection.old) (state S.Store connection.new) result }
{
    if next_are_own(connection)? {
        last_are_own(connection)
    } else {
        Ok(false)
    }
}

#[tactic(auto, using(store_sql_rows::proofs::FailLemmas::fails_later, store_sql_rows::proofs::FailLemmas::fails_later_if))]
fn all_are_own<S: Alter>(connection: &mut Connection<S>) -> Result<bool, Error>
    ensures mode { connection.old.in_transaction ≡ false → connection.new.in_transaction ≡ false }
    ensures asks { Asks (Joins (Joins (TellsOf desk_tree IsOne) (TellsOf panel_tree (AreOwn (1 ∷ [])))) (Joins (Joins
        (TellsOf command_tree (AreOwn (1 ∷ 2 ∷ []))) (TellsOf place_tree (AreOwn (1 ∷ 2 ∷ [])))) (Joins
        (TellsOf shown_tree (AreOwn (1 ∷ [])))
        (TellsOf imported_tree (AreOwn (1 ∷ 2 ∷ [])))))) (state S.Store connection.old) (state S.Store connection.new) result }
{
    if first_are_own(connection)? {
        others_are_own(connection)
    } else {
        Ok(false)
    }
}

/// Whether each row of the tables is numbered, and rows that share a number share the key; and whether `desk` has its
/// one row.
pub fn are_own<S: Alter>(connection: &mut Connection<S>) -> Result<bool, Error>
    ensures mode { connection.old.in_transaction ≡ false → connection.new.in_transaction ≡ false }
    ensures same { HasCleanDisk (state S.Store connection.new) → IsFitting (state S.Store connection.old).now
        → OnOk result (IsUnchanged (state S.Store connection.old) (state S.Store connection.new)) }
    ensures rests { HasCleanDisk (state S.Store connection.new) → IsFitting (state S.Store connection.old).now
        → Rests (state S.Store connection.old) (state S.Store connection.new) }
    ensures own { HasCleanDisk (state S.Store connection.new) → IsFitting (state S.Store connection.old).now
        → IfOk result (λ own. IsTrue own ↔ AreOurs (kept_in (state S.Store connection.old).now.trees)) }
    ensures cause { HasCleanDisk (state S.Store connection.new) → IsFitting (state S.Store connection.old).now
        → IfErr result (FailsFor (state S.Store connection.old) (state S.Store connection.new)) }
    ensures survives { Survives (state S.Store connection.old) (state S.Store connection.new) (λ _. IsFitting
        (state S.Store connection.old).now
        → ⊥) }
{
    all_are_own(connection)
}
