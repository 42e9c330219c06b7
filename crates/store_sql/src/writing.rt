//! Lists of items put into the tables, in a transaction.
ghost use Rattle.std.specs.List.{All};
ghost use Rattle.std.specs.Prelude.{◌≡◌, ◌≤◌, IfSome, drop, length};
ghost use Rattle.store_sql.specs.Exchange.{IsExchange};
ghost use Rattle.store.specs.Change.{CanStand, IsKeptRow, IsNext, IsPlace, with_change, with_each};
ghost use Rattle.store_sql_rows.specs.Steps.{FailsInside, Moves, Turns, imported_put, next_put, place_put, row_put, rows_dropped, shown_put, with_commands, with_values};

use sqlite::{Alter, Error, Transaction};
use std::alloc::Global;
use store::{Change, ImportedEntry, KeptRow, NextNumber, PlaceValue, RowsBelow, ShownValue};
use store_sql_rows::putting::{drop_rows, exchange_row, put_imported, put_last, put_row};
use store_sql_rows::{RowNumbers, put_leading_places, put_leading_shown, put_next};

// Puts next numbers, one after the other.
fn put_nexts<S: Alter>(
    transaction: &mut Transaction<'_, S>,
    numbers: &mut RowNumbers,
    items: &[NextNumber],
) -> Result<(), Error>
    requires { All IsNext items.now }
    ensures moves { Moves S.Store (Turns (with_each next_put items.now)) transaction.old.conn transaction.new.conn result }
{
    for item in items {
        put_next(transaction, numbers, item)?;
    }
    Ok(())
}

// Puts rows, one after the other.
fn put_rows<S: Alter>(transaction: &mut Transaction<'_, S>, items: &[KeptRow]) -> Result<(), Error>
    requires { All IsKeptRow items.now }
    ensures moves { Moves S.Store (Turns (with_each row_put items.now)) transaction.old.conn transaction.new.conn result }
{
    for item in items {
        put_row(transaction, item)?;
    }
    Ok(())
}

/// Drops rows, one item after the other.
pub(crate) fn drop_all<S: Alter>(
    transaction: &mut Transaction<'_, S>,
    items: &[RowsBelow],
) -> Result<(), Error>
    ensures moves { Moves S.Store (Turns (with_each rows_dropped items.now)) transaction.old.conn transaction.new.conn result }
    ensures cause { FailsInside S.Store transaction.old.conn transaction.new.conn result }
{
    for item in items {
        drop_rows(transaction, item)?;
    }
    Ok(())
}

// The items behind so many.
fn behind<T>(items: &[T], count: usize) -> &[T]
    requires { count ≤ length items.now }
    ensures { result.now ≡ drop count items.now }
{
    &items[count..]
}

// Puts values into places, one after the other, or together where one value goes into rows that follow one another.
fn put_places<S: Alter>(
    transaction: &mut Transaction<'_, S>,
    numbers: &mut RowNumbers,
    items: &[PlaceValue],
) -> Result<(), Error>
    requires { All IsPlace items.now }
    ensures moves { Moves S.Store (Turns (with_each place_put items.now)) transaction.old.conn transaction.new.conn result }
{
    let mut rest = items;
    while !rest.is_empty() {
        let count = put_leading_places(transaction, numbers, rest)?;
        rest = behind(rest, count);
    }
    Ok(())
}

// Puts what schedules show, one after the other, or together where rows that follow one another show one value.
fn put_all_shown<S: Alter>(
    transaction: &mut Transaction<'_, S>,
    numbers: &mut RowNumbers,
    items: &[ShownValue],
) -> Result<(), Error>
    ensures moves { Moves S.Store (Turns (with_each shown_put items.now)) transaction.old.conn transaction.new.conn result }
{
    let mut rest = items;
    while !rest.is_empty() {
        let count = put_leading_shown(transaction, numbers, rest)?;
        rest = behind(rest, count);
    }
    Ok(())
}

// Puts entries into calendars, one after the other.
fn put_all_imported<S: Alter>(
    alloc: Global,
    transaction: &mut Transaction<'_, S>,
    items: &[ImportedEntry],
) -> Result<(), Error>
    ensures moves { Moves S.Store (Turns (with_each imported_put items.now)) transaction.old.conn transaction.new.conn result }
{
    for item in items {
        put_imported(alloc, transaction, item)?;
    }
    Ok(())
}

// The row that a change puts and the number below which it drops those of that panel, where it puts and drops no others.
fn exchange_of(change: &Change) -> Option<(&KeptRow, u64)>
    ensures { IfSome result (λ it. IsExchange change.now it.0.now it.1) }
{
    let [item] = change.rows.as_slice() else {
        return None;
    };
    let [dropped] = change.dropped.as_slice() else {
        return None;
    };
    if dropped.panel == item.panel && dropped.number <= item.number {
        return Some((item, dropped.number));
    }
    None
}

// Writes the next numbers and the rows of a change.
fn write_commands<S: Alter>(
    transaction: &mut Transaction<'_, S>,
    numbers: &mut RowNumbers,
    change: &Change,
) -> Result<(), Error>
    requires { CanStand change.now }
    ensures moves { Moves S.Store (Turns (with_commands change.now)) transaction.old.conn transaction.new.conn result }
{
    put_nexts(transaction, numbers, &change.nexts)?;
    if let Some((item, below)) = exchange_of(change) {
        return exchange_row(transaction, item, below);
    }
    put_rows(transaction, &change.rows)?;
    drop_all(transaction, &change.dropped)
}

// Writes the places, what is shown, the entries and the last tick of a change.
fn write_values<S: Alter>(
    alloc: Global,
    transaction: &mut Transaction<'_, S>,
    numbers: &mut RowNumbers,
    change: &Change,
) -> Result<(), Error>
    requires { CanStand change.now }
    ensures moves { Moves S.Store (Turns (with_values change.now)) transaction.old.conn transaction.new.conn result }
{
    put_places(transaction, numbers, &change.places)?;
    put_all_shown(transaction, numbers, &change.shown)?;
    put_all_imported(alloc, transaction, &change.imported)?;
    put_last(transaction, change.last_tick)
}

/// Writes a whole change in a transaction, in the order of its lists.
pub(crate) fn write<S: Alter>(
    alloc: Global,
    transaction: &mut Transaction<'_, S>,
    numbers: &mut RowNumbers,
    change: &Change,
) -> Result<(), Error>
    requires { CanStand change.now }
    ensures moves { Moves S.Store (Turns (with_change change.now)) transaction.old.conn transaction.new.conn result }
{
    write_commands(transaction, numbers, change)?;
    write_values(alloc, transaction, numbers, change)
}
