//! The statements on the values in places.
ghost use Rattle.std.specs.Prelude.{◌<◌, pos, [], ◌∷◌};
ghost use Rattle.sqlite.specs.Held.{state};
ghost use Rattle.sqlite_value.specs.declared.value.Value.TheVariants.{Int, Text};
ghost use Rattle.sqlite_value.specs.Order.{column};
ghost use Rattle.sqlite_trees.specs.Tree.{rowid};
ghost use Rattle.store_sql_rows.specs.Looking.{Finds, FindsLeast, Reads, Stays, is_from_text};
ghost use Rattle.store_sql_rows.specs.Ours.{Adds, Changes, Loses, Remakes, Rewrites, RewritesAt, is_between};
ghost use Rattle.store_sql_rows.specs.Slot.{On, place_slot};
ghost use Rattle.store_sql_rows.specs.Steps.{Moves, MovesBy, StaysIfTaken};
ghost use Rattle.store_sql_rows.specs.Cells.{is_text};
ghost use Rattle.store_sql_rows.specs.Rows.{of_place};

use crate::looking::{ask, ask_inside};
use crate::parameters::{count, text, whole, words};
use crate::running::run;
use points::Name;
use sqlite::{Alter, Connection, Error, Row, Transaction};

/// Removes the value in a place.
pub fn clear<S: Alter>(
    transaction: &mut Transaction<'_, S>,
    point: &Name,
    priority: u8,
) -> Result<usize, Error>
    ensures moves { Moves S.Store (Changes (On place_slot (Loses (of_place point.now priority))))
        transaction.old.conn transaction.new.conn result }
{
    run(
        transaction,
        "DELETE FROM place WHERE point = ?1 AND priority = ?2",
        &[text(point), count(u64::from(priority))],
    )
}

/// Adds a value in a place. Where it has one it is refused as not unique, and nothing changes.
pub fn add<S: Alter>(
    transaction: &mut Transaction<'_, S>,
    point: &Name,
    priority: u8,
    value: i64,
) -> Result<usize, Error>
    ensures refused { StaysIfTaken (state S.Store transaction.old.conn.now) (state S.Store transaction.new.conn.now) result }
    ensures moves { Moves S.Store (Changes (On place_slot (Adds (of_place point.now priority)
        (Text point.now ∷ Int (pos priority) ∷ Int value ∷ [])))) transaction.old.conn transaction.new.conn result }
{
    run(
        transaction,
        "INSERT INTO place (point, priority, value) VALUES (?1, ?2, ?3)",
        &[text(point), count(u64::from(priority)), whole(value)],
    )
}

/// Sets the value in a place that has one, and answers how many rows that were: none, or the one that it has.
pub fn set<S: Alter>(
    transaction: &mut Transaction<'_, S>,
    point: &Name,
    priority: u8,
    value: i64,
) -> Result<usize, Error>
    ensures moves { MovesBy S.Store (λ count. Changes
        (On place_slot (Rewrites (of_place point.now priority) (Text point.now ∷ Int (pos priority) ∷ Int value ∷ []) count)))
        transaction.old.conn transaction.new.conn result }
{
    run(
        transaction,
        "UPDATE place SET value = ?3 WHERE point = ?1 AND priority = ?2",
        &[text(point), count(u64::from(priority)), whole(value)],
    )
}

/// Sets the value in a place whose row has this number, and answers how many rows that were: none, or that one.
pub fn set_at<S: Alter>(
    transaction: &mut Transaction<'_, S>,
    row: i64,
    point: &Name,
    priority: u8,
    value: i64,
) -> Result<usize, Error>
    ensures moves { MovesBy S.Store (λ count. Changes
        (On place_slot (RewritesAt row (of_place point.now priority) (Text point.now ∷ Int (pos priority) ∷ Int value ∷ []) count)))
        transaction.old.conn transaction.new.conn result }
{
    run(
        transaction,
        "UPDATE place SET value = ?3 WHERE rowid = ?4 AND point = ?1 AND priority = ?2",
        &[
            text(point),
            count(u64::from(priority)),
            whole(value),
            whole(row),
        ],
    )
}

/// Sets the value in the places whose rows have numbers from one to another.
pub fn set_between<S: Alter>(
    transaction: &mut Transaction<'_, S>,
    first: i64,
    last: i64,
    value: i64,
) -> Result<usize, Error>
    ensures moves { Moves S.Store (Changes (On place_slot (Remakes (is_between first last)
        (λ row. rowid row ∷ column row 1 ∷ column row 2 ∷ Int value ∷ [])))) transaction.old.conn transaction.new.conn result }
{
    run(
        transaction,
        "UPDATE place SET value = ?3 WHERE rowid >= ?1 AND rowid <= ?2",
        &[whole(first), whole(last), whole(value)],
    )
}

// ---- what is read

/// The cells `point` and `priority` of the places whose rows have numbers from one to another.
pub fn keys_between<S: Alter>(
    transaction: &mut Transaction<'_, S>,
    first: i64,
    last: i64,
) -> Result<Vec<Row>, Error>
    ensures moves { MovesBy S.Store (λ rows. Changes (Stays (λ kept. Finds (is_between first last)
        (λ row. column row 1 ∷ column row 2 ∷ []) kept.place rows.items))) transaction.old.conn transaction.new.conn result }
{
    ask_inside(
        transaction,
        "SELECT point, priority FROM place WHERE rowid >= ?1 AND rowid <= ?2",
        &[whole(first), whole(last)],
    )
}

/// The least name of a point from a text on, if there is one.
pub fn next_point<S: Alter>(connection: &mut Connection<S>, from: &str) -> Result<Vec<Row>, Error>
    ensures reads { Reads (λ kept rows. FindsLeast (λ row. is_from_text from.now (column row 1)) 1 kept.place rows.items)
        (state S.Store connection.old) (state S.Store connection.new) result }
{
    ask(
        connection,
        "SELECT point FROM place WHERE point >= ?1 ORDER BY point LIMIT 1",
        &[words(from)],
    )
}

/// The cells `priority` and `value` of the places of a point, and the numbers of their rows.
pub fn of_point<S: Alter>(connection: &mut Connection<S>, point: &Name) -> Result<Vec<Row>, Error>
    ensures reads { Reads (λ kept rows. Finds (λ row. is_text point.now (column row 1))
        (λ row. column row 2 ∷ column row 3 ∷ column row 0 ∷ []) kept.place rows.items)
        (state S.Store connection.old) (state S.Store connection.new) result }
{
    ask(
        connection,
        "SELECT priority, value, rowid FROM place WHERE point = ?1",
        &[text(point)],
    )
}
