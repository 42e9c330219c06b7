//! One value that schedules show whose rows follow one another, put into the tables: by one statement, where a look at
//! the rows shows that they do.
ghost use Rattle.std.specs.Prelude.{◌≡◌, ◌≤◌, ◌<◌, length, take, IfOk, IsTrue, if◌then◌else◌};
ghost use Rattle.store.specs.Change.{with_each};
ghost use Rattle.store_sql_rows.specs.Steps.{MovesBy, Turns, shown_put};
ghost use Rattle.store_sql_rows.specs.Together.{AreOf, ScheduleTakes, schedule_key, schedule_shown};

use crate::cells::{cell_at, is_text};
use crate::row_numbers::RowNumbers;
use crate::schedules;
use crate::shown_puts::put_shown;
use sqlite::{Alter, Error, Row, Transaction};
use store::ShownValue;

// How many schedules from the front show a value, in rows whose numbers follow one another from one on, as far as is known.
fn run_len(numbers: &RowNumbers, items: &[ShownValue], first: i64, value: Option<i64>) -> usize
    ensures { result ≤ length items.now }
{
    for (at, item) in items.iter().enumerate() {
        let number = numbers.shown.get(&item.schedule).copied();
        if item.shown != Some(value) || number != first.checked_add(at as i64) {
            return at;
        }
    }
    items.len()
}

// Whether a row that `schedules::keys_between` answered is of a schedule, and that is to show this value.
fn is_of(row: &Row, item: &ShownValue, value: Option<i64>) -> bool
    ensures { IsTrue result → (schedule_shown row.now ≡ schedule_key item.now) × ScheduleTakes value item.now }
{
    item.shown == Some(value) && is_text(cell_at(row, 0), item.schedule.as_str())
}

// Whether the rows that `schedules::keys_between` answered are of these schedules, one after the other, and those are to
// show this value.
fn are_of(rows: &[Row], items: &[ShownValue], value: Option<i64>) -> bool
    ensures { IsTrue result → AreOf schedule_shown schedule_key (ScheduleTakes value) rows.now items.now }
{
    if rows.len() != items.len() {
        return false;
    }
    for (at, item) in items.iter().enumerate() {
        if !is_of(&rows[at], item, value) {
            return false;
        }
    }
    true
}

// Puts what some schedules show by one statement, and answers whether it did: not where the rows from a number on are not
// theirs.
fn put_run<S: Alter>(
    transaction: &mut Transaction<'_, S>,
    first: i64,
    items: &[ShownValue],
    value: Option<i64>,
) -> Result<bool, Error>
    ensures moves { MovesBy S.Store (λ did. Turns (if did then with_each shown_put items.now else (λ tables. tables)))
        transaction.old.conn transaction.new.conn result }
{
    let last = first.saturating_add(items.len() as i64 - 1);
    let rows = schedules::keys_between(transaction, first, last)?;
    if !are_of(&rows, items, value) {
        return Ok(false);
    }
    schedules::set_between(transaction, first, last, value)?;
    Ok(true)
}

// Puts what the first schedules show by one statement, where that can be, and answers of how many.
fn put_together<S: Alter>(
    transaction: &mut Transaction<'_, S>,
    numbers: &RowNumbers,
    items: &[ShownValue],
    first: i64,
    value: Option<i64>,
) -> Result<usize, Error>
    ensures within { IfOk result (λ count. count ≤ length items.now) }
    ensures moves { MovesBy S.Store (λ count. Turns (with_each shown_put (take count items.now)))
        transaction.old.conn transaction.new.conn result }
{
    let count = run_len(numbers, items, first, value);
    if 1 < count && put_run(transaction, first, &items[..count], value)? {
        return Ok(count);
    }
    Ok(0)
}

/// Puts what the first of some schedules shows, and what those behind it show that can be put together with it; answers
/// how many they are.
pub fn put_leading_shown<S: Alter>(
    transaction: &mut Transaction<'_, S>,
    numbers: &mut RowNumbers,
    items: &[ShownValue],
) -> Result<usize, Error>
    requires { 0 < length items.now }
    ensures some { IfOk result (λ count. 0 < count) }
    ensures within { IfOk result (λ count. count ≤ length items.now) }
    ensures moves { MovesBy S.Store (λ count. Turns (with_each shown_put (take count items.now)))
        transaction.old.conn transaction.new.conn result }
{
    let item = &items[0];
    if let Some(value) = item.shown
        && let Some(first) = numbers.shown.get(&item.schedule).copied()
    {
        let count = put_together(transaction, numbers, items, first, value)?;
        if 0 < count {
            return Ok(count);
        }
    }
    put_shown(transaction, numbers, item)?;
    Ok(1)
}
