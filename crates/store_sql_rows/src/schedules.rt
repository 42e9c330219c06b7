//! The statements on the values that schedules show.
ghost use Rattle.std.specs.Prelude.{◌<◌, [], ◌∷◌};
ghost use Rattle.sqlite.specs.Held.{state};
ghost use Rattle.sqlite_value.specs.declared.value.Value.TheVariants.{Text};
ghost use Rattle.sqlite_value.specs.Order.{column};
ghost use Rattle.sqlite_trees.specs.Tree.{rowid};
ghost use Rattle.store_sql_rows.specs.Looking.{Finds, FindsLeast, Reads, Stays, is_from_text};
ghost use Rattle.store_sql_rows.specs.Ours.{Adds, Changes, Loses, Remakes, Rewrites, RewritesAt, is_between};
ghost use Rattle.store_sql_rows.specs.Slot.{On, shown_slot};
ghost use Rattle.store_sql_rows.specs.Steps.{Moves, MovesBy, StaysIfTaken};
ghost use Rattle.store_sql_rows.specs.Cells.{cell_of};
ghost use Rattle.store_sql_rows.specs.Rows.{of_schedule};

use crate::looking::{ask, ask_inside};
use crate::parameters::{optional, text, whole, words};
use crate::running::run;
use points::Name;
use sqlite::{Alter, Connection, Error, Row, Transaction};

/// Removes what a schedule shows.
pub fn clear<S: Alter>(
    transaction: &mut Transaction<'_, S>,
    schedule: &Name,
) -> Result<usize, Error>
    ensures moves { Moves S.Store (Changes (On shown_slot (Loses (of_schedule schedule.now))))
        transaction.old.conn transaction.new.conn result }
{
    run(
        transaction,
        "DELETE FROM shown WHERE schedule = ?1",
        &[text(schedule)],
    )
}

/// Adds what a schedule shows. Where it shows something it is refused as not unique, and nothing changes.
pub fn add<S: Alter>(
    transaction: &mut Transaction<'_, S>,
    schedule: &Name,
    value: Option<i64>,
) -> Result<usize, Error>
    ensures refused { StaysIfTaken (state S.Store transaction.old.conn.now) (state S.Store transaction.new.conn.now) result }
    ensures moves { Moves S.Store (Changes (On shown_slot (Adds (of_schedule schedule.now) (Text schedule.now ∷ cell_of value ∷ []))))
        transaction.old.conn transaction.new.conn result }
{
    run(
        transaction,
        "INSERT INTO shown (schedule, value) VALUES (?1, ?2)",
        &[text(schedule), optional(value)],
    )
}

/// Sets what a schedule that shows something shows, and answers how many rows that were: none, or the one that it has.
pub fn set<S: Alter>(
    transaction: &mut Transaction<'_, S>,
    schedule: &Name,
    value: Option<i64>,
) -> Result<usize, Error>
    ensures moves { MovesBy S.Store (λ count. Changes
        (On shown_slot (Rewrites (of_schedule schedule.now) (Text schedule.now ∷ cell_of value ∷ []) count)))
        transaction.old.conn transaction.new.conn result }
{
    run(
        transaction,
        "UPDATE shown SET value = ?2 WHERE schedule = ?1",
        &[text(schedule), optional(value)],
    )
}

/// Sets what a schedule shows whose row has this number, and answers how many rows that were: none, or that one.
pub fn set_at<S: Alter>(
    transaction: &mut Transaction<'_, S>,
    row: i64,
    schedule: &Name,
    value: Option<i64>,
) -> Result<usize, Error>
    ensures moves { MovesBy S.Store (λ count. Changes
        (On shown_slot (RewritesAt row (of_schedule schedule.now) (Text schedule.now ∷ cell_of value ∷ []) count)))
        transaction.old.conn transaction.new.conn result }
{
    run(
        transaction,
        "UPDATE shown SET value = ?2 WHERE rowid = ?3 AND schedule = ?1",
        &[text(schedule), optional(value), whole(row)],
    )
}

/// Sets what the schedules show whose rows have numbers from one to another.
pub fn set_between<S: Alter>(
    transaction: &mut Transaction<'_, S>,
    first: i64,
    last: i64,
    value: Option<i64>,
) -> Result<usize, Error>
    ensures moves { Moves S.Store (Changes (On shown_slot (Remakes (is_between first last)
        (λ row. rowid row ∷ column row 1 ∷ cell_of value ∷ [])))) transaction.old.conn transaction.new.conn result }
{
    run(
        transaction,
        "UPDATE shown SET value = ?3 WHERE rowid >= ?1 AND rowid <= ?2",
        &[whole(first), whole(last), optional(value)],
    )
}

// ---- what is read

/// The cell `schedule` of the schedules whose rows have numbers from one to another.
pub fn keys_between<S: Alter>(
    transaction: &mut Transaction<'_, S>,
    first: i64,
    last: i64,
) -> Result<Vec<Row>, Error>
    ensures moves { MovesBy S.Store (λ rows. Changes (Stays (λ kept. Finds (is_between first last)
        (λ row. column row 1 ∷ []) kept.shown rows.items))) transaction.old.conn transaction.new.conn result }
{
    ask_inside(
        transaction,
        "SELECT schedule FROM shown WHERE rowid >= ?1 AND rowid <= ?2",
        &[whole(first), whole(last)],
    )
}

/// The cell `value` of a schedule, and the number of its row.
pub fn find<S: Alter>(connection: &mut Connection<S>, schedule: &Name) -> Result<Vec<Row>, Error>
    ensures reads { Reads (λ kept rows. Finds (of_schedule schedule.now) (λ row. column row 2 ∷ column row 0 ∷ []) kept.shown rows.items)
        (state S.Store connection.old) (state S.Store connection.new) result }
{
    ask(
        connection,
        "SELECT value, rowid FROM shown WHERE schedule = ?1",
        &[text(schedule)],
    )
}

/// The least name from a text on, if there is one.
pub fn next_name<S: Alter>(connection: &mut Connection<S>, from: &str) -> Result<Vec<Row>, Error>
    ensures reads { Reads (λ kept rows. FindsLeast (λ row. is_from_text from.now (column row 1)) 1 kept.shown rows.items)
        (state S.Store connection.old) (state S.Store connection.new) result }
{
    ask(
        connection,
        "SELECT schedule FROM shown WHERE schedule >= ?1 ORDER BY schedule LIMIT 1",
        &[words(from)],
    )
}
