//! What a schedule shows put into the tables, in a transaction.
ghost use Rattle.std.specs.Prelude.{◌≡◌, Some};
ghost use Rattle.store_sql_rows.specs.Steps.{Moves, Turns, shown_put};

use crate::row_numbers::{RowNumbers, note};
use crate::schedules;
use sqlite::{Alter, Constraint, Error, ErrorCode, Transaction};
use store::ShownValue;

// Puts it by its key.
fn set<S: Alter>(
    transaction: &mut Transaction<'_, S>,
    numbers: &mut RowNumbers,
    item: &ShownValue,
    value: Option<i64>,
) -> Result<(), Error>
    requires { item.now.shown ≡ Some value }
    ensures moves { Moves S.Store (Turns (shown_put item.now)) transaction.old.conn transaction.new.conn result }
{
    let _name = item.schedule.as_str();
    if schedules::set(transaction, &item.schedule, value)? == 0 {
        schedules::add(transaction, &item.schedule, value)?;
        let row = transaction.last_insert_rowid();
        note(&mut numbers.shown, item.schedule, row);
        return Ok(());
    }
    let _wrong = numbers.shown.remove(&item.schedule);
    Ok(())
}

// Adds it; where something is shown whose number is not known, that is set by its key.
fn add<S: Alter>(
    transaction: &mut Transaction<'_, S>,
    numbers: &mut RowNumbers,
    item: &ShownValue,
    value: Option<i64>,
) -> Result<(), Error>
    requires { item.now.shown ≡ Some value }
    ensures moves { Moves S.Store (Turns (shown_put item.now)) transaction.old.conn transaction.new.conn result }
{
    let _name = item.schedule.as_str();
    match schedules::add(transaction, &item.schedule, value) {
        Ok(_) => {
            let row = transaction.last_insert_rowid();
            note(&mut numbers.shown, item.schedule, row);
            Ok(())
        }
        Err(Error::SqliteFailure(ErrorCode::ConstraintViolation(Constraint::Unique))) => set(
            transaction,
            numbers,
            item,
            value,
        ),
        Err(error) => Err(error),
    }
}

// Puts a value that is shown, by the number of its row where that is known and right.
fn put_value<S: Alter>(
    transaction: &mut Transaction<'_, S>,
    numbers: &mut RowNumbers,
    item: &ShownValue,
    value: Option<i64>,
) -> Result<(), Error>
    requires { item.now.shown ≡ Some value }
    ensures moves { Moves S.Store (Turns (shown_put item.now)) transaction.old.conn transaction.new.conn result }
{
    let _name = item.schedule.as_str();
    let Some(row) = numbers.shown.get(&item.schedule).copied() else {
        return add(transaction, numbers, item, value);
    };
    if schedules::set_at(transaction, row, &item.schedule, value)? == 0 {
        return add(transaction, numbers, item, value);
    }
    Ok(())
}

/// Puts what a schedule shows, or takes it out: by the number of its row, where that is known and right.
pub fn put_shown<S: Alter>(
    transaction: &mut Transaction<'_, S>,
    numbers: &mut RowNumbers,
    item: &ShownValue,
) -> Result<(), Error>
    ensures moves { Moves S.Store (Turns (shown_put item.now)) transaction.old.conn transaction.new.conn result }
{
    if let Some(value) = item.shown {
        return put_value(transaction, numbers, item, value);
    }
    schedules::clear(transaction, &item.schedule)?;
    let _gone = numbers.shown.remove(&item.schedule);
    Ok(())
}
