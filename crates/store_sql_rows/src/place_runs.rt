//! One value put into places whose rows follow one another: by one statement, where a look at them shows that they do.
ghost use Rattle.std.specs.List.{All};
ghost use Rattle.std.specs.Prelude.{◌≡◌, ◌≤◌, ◌<◌, length, take, IfOk, IsTrue, if◌then◌else◌};
ghost use Rattle.store.specs.Change.{IsPlace, with_each};
ghost use Rattle.store_sql_rows.specs.Steps.{MovesBy, Turns, place_put};
ghost use Rattle.store_sql_rows.specs.Together.{AreOf, PlaceTakes, place_key, place_shown};

use crate::cells::{cell_at, count_of, is_text};
use crate::place_puts::put_place;
use crate::places;
use crate::row_numbers::RowNumbers;
use sqlite::{Alter, Error, Row, Transaction};
use store::PlaceValue;

// How many places from the front take a value, in rows whose numbers follow one another from one on, as far as is known.
fn run_len(numbers: &RowNumbers, items: &[PlaceValue], first: i64, value: i64) -> usize
    ensures { result ≤ length items.now }
{
    for (at, item) in items.iter().enumerate() {
        let number = numbers.places.get(&(item.point, item.priority)).copied();
        if item.value != Some(value) || number != first.checked_add(at as i64) {
            return at;
        }
    }
    items.len()
}

// Whether a row that `places::keys_between` answered is of a place, and that takes this value.
fn is_of(row: &Row, item: &PlaceValue, value: i64) -> bool
    ensures { IsTrue result → (place_shown row.now ≡ place_key item.now) × PlaceTakes value item.now }
{
    item.value == Some(value)
        && is_text(cell_at(row, 0), item.point.as_str())
        && count_of(cell_at(row, 1), 1, 16) == Some(u64::from(item.priority))
}

// Whether the rows that `places::keys_between` answered are of these places, one after the other, and those take this
// value.
fn are_of(rows: &[Row], items: &[PlaceValue], value: i64) -> bool
    ensures { IsTrue result → AreOf place_shown place_key (PlaceTakes value) rows.now items.now }
{
    if rows.len() != items.len() {
        return false;
    }
    for (at, item) in items.iter().enumerate() {
        if !is_of(&rows[at], item, value) {
            return false;
        }
    }
    true
}

// Puts a value into some places by one statement, and answers whether it did: not where the rows from a number on are not
// theirs.
fn put_run<S: Alter>(
    transaction: &mut Transaction<'_, S>,
    first: i64,
    items: &[PlaceValue],
    value: i64,
) -> Result<bool, Error>
    requires { All IsPlace items.now }
    ensures moves { MovesBy S.Store (λ did. Turns (if did then with_each place_put items.now else (λ tables. tables)))
        transaction.old.conn transaction.new.conn result }
{
    let last = first.saturating_add(items.len() as i64 - 1);
    let rows = places::keys_between(transaction, first, last)?;
    if !are_of(&rows, items, value) {
        return Ok(false);
    }
    places::set_between(transaction, first, last, value)?;
    Ok(true)
}

// Puts the values of the first places by one statement, where that can be, and answers of how many.
fn put_together<S: Alter>(
    transaction: &mut Transaction<'_, S>,
    numbers: &RowNumbers,
    items: &[PlaceValue],
    first: i64,
    value: i64,
) -> Result<usize, Error>
    requires { All IsPlace items.now }
    ensures within { IfOk result (λ count. count ≤ length items.now) }
    ensures moves { MovesBy S.Store (λ count. Turns (with_each place_put (take count items.now)))
        transaction.old.conn transaction.new.conn result }
{
    let count = run_len(numbers, items, first, value);
    if 1 < count && put_run(transaction, first, &items[..count], value)? {
        return Ok(count);
    }
    Ok(0)
}

/// Puts the value of the first of some places, and those behind it that can be put together with it; answers how many
/// they are.
pub fn put_leading_places<S: Alter>(
    transaction: &mut Transaction<'_, S>,
    numbers: &mut RowNumbers,
    items: &[PlaceValue],
) -> Result<usize, Error>
    requires places { All IsPlace items.now }
    requires some { 0 < length items.now }
    ensures some { IfOk result (λ count. 0 < count) }
    ensures within { IfOk result (λ count. count ≤ length items.now) }
    ensures moves { MovesBy S.Store (λ count. Turns (with_each place_put (take count items.now)))
        transaction.old.conn transaction.new.conn result }
{
    let item = &items[0];
    if let Some(value) = item.value
        && let Some(first) = numbers.places.get(&(item.point, item.priority)).copied()
    {
        let count = put_together(transaction, numbers, items, first, value)?;
        if 0 < count {
            return Ok(count);
        }
    }
    put_place(transaction, numbers, item)?;
    Ok(1)
}
