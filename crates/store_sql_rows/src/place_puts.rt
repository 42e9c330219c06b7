//! A value put into a place of a priority array, in a transaction.
ghost use Rattle.std.specs.Prelude.{◌≡◌, Some};
ghost use Rattle.store.specs.Change.{IsPlace};
ghost use Rattle.store_sql_rows.specs.Steps.{Moves, Turns, place_put};

use crate::places;
use crate::row_numbers::{RowNumbers, note};
use sqlite::{Alter, Constraint, Error, ErrorCode, Transaction};
use store::PlaceValue;

// Puts a value by its key.
fn set<S: Alter>(
    transaction: &mut Transaction<'_, S>,
    numbers: &mut RowNumbers,
    item: &PlaceValue,
    value: i64,
) -> Result<(), Error>
    requires place { IsPlace item.now }
    requires value { item.now.value ≡ Some value }
    ensures moves { Moves S.Store (Turns (place_put item.now)) transaction.old.conn transaction.new.conn result }
{
    let _name = item.point.as_str();
    if places::set(transaction, &item.point, item.priority, value)? == 0 {
        places::add(transaction, &item.point, item.priority, value)?;
        let row = transaction.last_insert_rowid();
        note(&mut numbers.places, (item.point, item.priority), row);
        return Ok(());
    }
    let _wrong = numbers.places.remove(&(item.point, item.priority));
    Ok(())
}

// Adds a value; where one stands whose number is not known, that is set by its key.
fn add<S: Alter>(
    transaction: &mut Transaction<'_, S>,
    numbers: &mut RowNumbers,
    item: &PlaceValue,
    value: i64,
) -> Result<(), Error>
    requires place { IsPlace item.now }
    requires value { item.now.value ≡ Some value }
    ensures moves { Moves S.Store (Turns (place_put item.now)) transaction.old.conn transaction.new.conn result }
{
    let _name = item.point.as_str();
    match places::add(transaction, &item.point, item.priority, value) {
        Ok(_) => {
            let row = transaction.last_insert_rowid();
            note(&mut numbers.places, (item.point, item.priority), row);
            Ok(())
        }
        Err(Error::SqliteFailure(ErrorCode::ConstraintViolation(Constraint::Unique))) => set(
            transaction,
            numbers,
            item,
            value,
        ),
        Err(error) => Err(error),
    }
}

// Puts a value, by the number of its row where that is known and right.
fn put_value<S: Alter>(
    transaction: &mut Transaction<'_, S>,
    numbers: &mut RowNumbers,
    item: &PlaceValue,
    value: i64,
) -> Result<(), Error>
    requires place { IsPlace item.now }
    requires value { item.now.value ≡ Some value }
    ensures moves { Moves S.Store (Turns (place_put item.now)) transaction.old.conn transaction.new.conn result }
{
    let _name = item.point.as_str();
    let key = (item.point, item.priority);
    let Some(row) = numbers.places.get(&key).copied() else {
        return add(transaction, numbers, item, value);
    };
    if places::set_at(transaction, row, &item.point, item.priority, value)? == 0 {
        return add(transaction, numbers, item, value);
    }
    Ok(())
}

/// Puts a value into a place, or takes it out: by the number of its row, where that is known and right.
pub fn put_place<S: Alter>(
    transaction: &mut Transaction<'_, S>,
    numbers: &mut RowNumbers,
    item: &PlaceValue,
) -> Result<(), Error>
    requires { IsPlace item.now }
    ensures moves { Moves S.Store (Turns (place_put item.now)) transaction.old.conn transaction.new.conn result }
{
    if let Some(value) = item.value {
        return put_value(transaction, numbers, item, value);
    }
    places::clear(transaction, &item.point, item.priority)?;
    let _gone = numbers.places.remove(&(item.point, item.priority));
    Ok(())
}
