//! A command's row, an entry or the last tick put into the tables, in a transaction.
ghost use Rattle.std.specs.Prelude.{◌≡◌, ◌≤◌, Some};
ghost use Rattle.dates.specs.Entry.{IsEntry, spelling};
ghost use Rattle.sqlite.specs.Held.{state};
ghost use Rattle.sqlite_value.specs.declared.value.Value.TheVariants.{Int};
ghost use Rattle.store.specs.Change.{IsKeptRow};
ghost use Rattle.store_sql_rows.specs.Cells.{cell_of};
ghost use Rattle.store_sql_rows.specs.Rows.{state_in};
ghost use Rattle.store_sql_rows.specs.Steps.{FailsInside, Moves, Steps, Turns, imported_put, last_put, row_put, rows_dropped};

use crate::command_cells::{StateCells, cells_of};
use crate::{calendars, commands, desk_row};
use points::LAST_NUMBER;
use sqlite::{Alter, Constraint, Error, ErrorCode, Transaction};
use std::alloc::Global;
use store::{ImportedEntry, KeptRow, RowsBelow};

// A number above that of each command.
const ABOVE: u64 = LAST_NUMBER + 1;

// Puts the row of a command, whose state these cells say, in place of the one that stands there.
fn replace_row<S: Alter>(
    transaction: &mut Transaction<'_, S>,
    item: &KeptRow,
    cells: &StateCells,
) -> Result<(), Error>
    requires { IsKeptRow item.now }
    ensures same_reference { transaction.new.conn.ghost_name ≡ transaction.old.conn.ghost_name }
    ensures steps { state_in (Int cells.now.code) (cell_of cells.now.a) (cell_of cells.now.b) ≡ Some item.now.row.state
        → Steps (Turns (row_put item.now)) (state S.Store transaction.old.conn.now) (state S.Store transaction.new.conn.now) result }
{
    let _name = item.panel.as_str();
    let _point = item.row.content.point.as_str();
    commands::clear(transaction, &item.panel, item.number)?;
    commands::add(
        transaction,
        &item.panel,
        item.number,
        &item.row.content,
        cells,
    )?;
    Ok(())
}

/// Puts the row of a command. Most are new, so that it is added first, and one that stands there is removed only where
/// that is refused.
pub fn put_row<S: Alter>(transaction: &mut Transaction<'_, S>, item: &KeptRow) -> Result<(), Error>
    requires { IsKeptRow item.now }
    ensures moves { Moves S.Store (Turns (row_put item.now)) transaction.old.conn transaction.new.conn result }
{
    let _name = item.panel.as_str();
    let _point = item.row.content.point.as_str();
    let cells = cells_of(&item.row.state);
    match commands::add(
        transaction,
        &item.panel,
        item.number,
        &item.row.content,
        &cells,
    ) {
        Ok(_) => Ok(()),
        Err(Error::SqliteFailure(ErrorCode::ConstraintViolation(Constraint::Unique))) =>
            replace_row(transaction, item, &cells),
        Err(error) => Err(error),
    }
}

/// Drops the rows of a panel below a number: below 0 there is none, so that nothing is asked of the database.
pub fn drop_rows<S: Alter>(
    transaction: &mut Transaction<'_, S>,
    item: &RowsBelow,
) -> Result<(), Error>
    ensures moves { Moves S.Store (Turns (rows_dropped item.now)) transaction.old.conn transaction.new.conn result }
    ensures cause { FailsInside S.Store transaction.old.conn transaction.new.conn result }
{
    if item.number == 0 {
        return Ok(());
    }
    let number = if item.number < ABOVE {
        item.number
    } else {
        ABOVE
    };
    commands::drop_below(transaction, &item.panel, number)?;
    Ok(())
}

// Drops the rows of a panel below a number and puts the row of a command.
fn drop_and_put<S: Alter>(
    transaction: &mut Transaction<'_, S>,
    item: &KeptRow,
    below: u64,
) -> Result<(), Error>
    requires { IsKeptRow item.now }
    ensures moves { Moves S.Store (Turns (λ tables. row_put item.now (rows_dropped (record { panel = item.now.panel; number = below }) tables)))
        transaction.old.conn transaction.new.conn result }
{
    let dropped = RowsBelow {
        panel: item.panel,
        number: below,
    };
    drop_rows(transaction, &dropped)?;
    put_row(transaction, item)
}

/// Drops the rows of a panel below a number, and puts the row of a command that has that number or a greater one. Of a
/// panel that is past its first rows one falls out with each command: that row becomes the new one, so that no other is
/// touched.
pub fn exchange_row<S: Alter>(
    transaction: &mut Transaction<'_, S>,
    item: &KeptRow,
    below: u64,
) -> Result<(), Error>
    requires item { IsKeptRow item.now }
    requires below { below ≤ item.now.number }
    ensures moves { Moves S.Store (Turns (λ tables. row_put item.now (rows_dropped (record { panel = item.now.panel; number = below }) tables)))
        transaction.old.conn transaction.new.conn result }
{
    let _name = item.panel.as_str();
    let _point = item.row.content.point.as_str();
    let cells = cells_of(&item.row.state);
    match commands::exchange(
        transaction,
        &item.panel,
        below,
        item.number,
        &item.row.content,
        &cells,
    ) {
        Ok(0) => put_row(transaction, item),
        Ok(_) => Ok(()),
        Err(Error::SqliteFailure(ErrorCode::ConstraintViolation(Constraint::Unique))) =>
            drop_and_put(transaction, item, below),
        Err(error) => Err(error),
    }
}

// Puts an entry into a calendar in place of the one that stands there.
fn replace_imported<S: Alter>(
    transaction: &mut Transaction<'_, S>,
    item: &ImportedEntry,
    text: &str,
) -> Result<(), Error>
    requires { text.now ≡ spelling item.now.entry }
    ensures same_reference { transaction.new.conn.ghost_name ≡ transaction.old.conn.ghost_name }
    ensures steps { IsEntry item.now.entry → Steps (Turns (imported_put item.now)) (state S.Store transaction.old.conn.now)
        (state S.Store transaction.new.conn.now) result }
{
    let _name = item.calendar.as_str();
    calendars::clear(transaction, &item.calendar, text)?;
    calendars::add(transaction, &item.calendar, text)?;
    Ok(())
}

/// Puts an entry into a calendar. Most are new, so that it is added first, and one that stands there is removed only
/// where that is refused.
pub fn put_imported<S: Alter>(
    alloc: Global,
    transaction: &mut Transaction<'_, S>,
    item: &ImportedEntry,
) -> Result<(), Error>
    ensures moves { Moves S.Store (Turns (imported_put item.now)) transaction.old.conn transaction.new.conn result }
{
    let _name = item.calendar.as_str();
    let entry = item.entry.write(alloc)?;
    let text = entry.as_str();
    match calendars::add(transaction, &item.calendar, text) {
        Ok(_) => Ok(()),
        Err(Error::SqliteFailure(ErrorCode::ConstraintViolation(Constraint::Unique))) =>
            replace_imported(transaction, item, text),
        Err(error) => Err(error),
    }
}

/// Puts the moment of the last tick, where there is one.
pub fn put_last<S: Alter>(
    transaction: &mut Transaction<'_, S>,
    last: Option<i64>,
) -> Result<(), Error>
    ensures moves { Moves S.Store (Turns (last_put last)) transaction.old.conn transaction.new.conn result }
{
    if let Some(moment) = last {
        desk_row::set_last(transaction, moment)?;
    }
    Ok(())
}
