//! A panel's next number put into the tables, in a transaction.
ghost use Rattle.store.specs.Change.{IsNext};
ghost use Rattle.store_sql_rows.specs.Steps.{Moves, Turns, next_put};

use crate::panels;
use crate::row_numbers::{RowNumbers, note};
use sqlite::{Alter, Constraint, Error, ErrorCode, Transaction};
use store::NextNumber;

// Puts it by its key.
fn set<S: Alter>(
    transaction: &mut Transaction<'_, S>,
    numbers: &mut RowNumbers,
    item: &NextNumber,
) -> Result<(), Error>
    requires { IsNext item.now }
    ensures moves { Moves S.Store (Turns (next_put item.now)) transaction.old.conn transaction.new.conn result }
{
    let _name = item.panel.as_str();
    if panels::set(transaction, &item.panel, item.next)? == 0 {
        panels::add(transaction, &item.panel, item.next)?;
        let row = transaction.last_insert_rowid();
        note(&mut numbers.nexts, item.panel, row);
        return Ok(());
    }
    let _wrong = numbers.nexts.remove(&item.panel);
    Ok(())
}

// Adds it; where one stands whose number is not known, that is set by its key.
fn add<S: Alter>(
    transaction: &mut Transaction<'_, S>,
    numbers: &mut RowNumbers,
    item: &NextNumber,
) -> Result<(), Error>
    requires { IsNext item.now }
    ensures moves { Moves S.Store (Turns (next_put item.now)) transaction.old.conn transaction.new.conn result }
{
    let _name = item.panel.as_str();
    match panels::add(transaction, &item.panel, item.next) {
        Ok(_) => {
            let row = transaction.last_insert_rowid();
            note(&mut numbers.nexts, item.panel, row);
            Ok(())
        }
        Err(Error::SqliteFailure(ErrorCode::ConstraintViolation(Constraint::Unique))) => set(
            transaction,
            numbers,
            item,
        ),
        Err(error) => Err(error),
    }
}

/// Puts the next number of a panel: by the number of its row, where that is known and right.
pub fn put_next<S: Alter>(
    transaction: &mut Transaction<'_, S>,
    numbers: &mut RowNumbers,
    item: &NextNumber,
) -> Result<(), Error>
    requires { IsNext item.now }
    ensures moves { Moves S.Store (Turns (next_put item.now)) transaction.old.conn transaction.new.conn result }
{
    let _name = item.panel.as_str();
    let Some(row) = numbers.nexts.get(&item.panel).copied() else {
        return add(transaction, numbers, item);
    };
    if panels::set_at(transaction, row, &item.panel, item.next)? == 0 {
        return add(transaction, numbers, item);
    }
    Ok(())
}
