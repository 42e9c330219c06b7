//! The statements on the imported entries.
ghost use Rattle.std.specs.Prelude.{◌<◌, ◌&&◌, [], ◌∷◌};
ghost use Rattle.sqlite.specs.Held.{state};
ghost use Rattle.sqlite_value.specs.declared.value.Value.TheVariants.{Text};
ghost use Rattle.sqlite_value.specs.Order.{column};
ghost use Rattle.store_sql_rows.specs.Looking.{Finds, FindsLeast, Reads, is_from_text};
ghost use Rattle.store_sql_rows.specs.Ours.{Adds, Changes, Loses};
ghost use Rattle.store_sql_rows.specs.Slot.{On, imported_slot};
ghost use Rattle.store_sql_rows.specs.Steps.{Moves, StaysIfTaken};
ghost use Rattle.store_sql_rows.specs.Cells.{is_text};
ghost use Rattle.store_sql_rows.specs.Rows.{of_entry};

use crate::looking::ask;
use crate::parameters::{text, words};
use crate::running::run;
use points::Name;
use sqlite::{Alter, Connection, Error, Row, Transaction};

/// Removes an entry of a calendar.
pub fn clear<S: Alter>(
    transaction: &mut Transaction<'_, S>,
    calendar: &Name,
    entry: &str,
) -> Result<usize, Error>
    ensures moves { Moves S.Store (Changes (On imported_slot (Loses (of_entry calendar.now entry.now))))
        transaction.old.conn transaction.new.conn result }
{
    run(
        transaction,
        "DELETE FROM imported WHERE calendar = ?1 AND entry = ?2",
        &[text(calendar), words(entry)],
    )
}

/// Adds an entry to a calendar. Where it stands there already it is refused as not unique, and nothing changes.
pub fn add<S: Alter>(
    transaction: &mut Transaction<'_, S>,
    calendar: &Name,
    entry: &str,
) -> Result<usize, Error>
    ensures refused { StaysIfTaken (state S.Store transaction.old.conn.now) (state S.Store transaction.new.conn.now) result }
    ensures moves { Moves S.Store (Changes (On imported_slot (Adds (of_entry calendar.now entry.now) (Text calendar.now ∷ Text entry.now ∷ []))))
        transaction.old.conn transaction.new.conn result }
{
    run(
        transaction,
        "INSERT INTO imported (calendar, entry) VALUES (?1, ?2)",
        &[text(calendar), words(entry)],
    )
}

// ---- what is read

/// The least name from a text on, if there is one.
pub fn next_name<S: Alter>(connection: &mut Connection<S>, from: &str) -> Result<Vec<Row>, Error>
    ensures reads { Reads (λ kept rows. FindsLeast (λ row. is_from_text from.now (column row 1)) 1 kept.imported rows.items)
        (state S.Store connection.old) (state S.Store connection.new) result }
{
    ask(
        connection,
        "SELECT calendar FROM imported WHERE calendar >= ?1 ORDER BY calendar LIMIT 1",
        &[words(from)],
    )
}

/// The least entry of a calendar from a text on, if there is one.
pub fn next_entry<S: Alter>(
    connection: &mut Connection<S>,
    calendar: &Name,
    from: &str,
) -> Result<Vec<Row>, Error>
    ensures reads { Reads (λ kept rows. FindsLeast
        (λ row. is_text calendar.now (column row 1) && is_from_text from.now (column row 2)) 2 kept.imported rows.items)
        (state S.Store connection.old) (state S.Store connection.new) result }
{
    ask(
        connection,
        "SELECT entry FROM imported WHERE calendar = ?1 AND entry >= ?2 ORDER BY entry LIMIT 1",
        &[text(calendar), words(from)],
    )
}

/// The cells `entry` of a calendar's entries.
pub fn of_calendar<S: Alter>(
    connection: &mut Connection<S>,
    calendar: &Name,
) -> Result<Vec<Row>, Error>
    ensures reads { Reads (λ kept rows. Finds (λ row. is_text calendar.now (column row 1))
        (λ row. column row 2 ∷ []) kept.imported rows.items)
        (state S.Store connection.old) (state S.Store connection.new) result }
{
    ask(
        connection,
        "SELECT entry FROM imported WHERE calendar = ?1",
        &[text(calendar)],
    )
}
