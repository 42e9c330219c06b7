//! Whether two deliveries are the same.
ghost use Rattle.std.specs.Prelude.{◌≡◌, IfOk};
ghost use Rattle.std.specs.Bool.{IsTrue};

use dates::Entry;
use deliveries::Delivery;
use points::{Content, Name};
use sched::CalendarEntry;
use std::alloc::{AllocError, Global};

fn is_command(delivery: &Delivery, panel: &Name, number: i64, content: &Content) -> bool
    ensures { IsTrue result → delivery.now ≡ Delivery.Command panel.now number content.now }
{
    match delivery {
        Delivery::Command {
            panel: named,
            number: numbered,
            content: asked,
        } => named == panel && *numbered == number && asked.is_same_as(content),
        _ => false,
    }
}

fn is_skip(delivery: &Delivery, panel: &Name, upto: i64) -> bool
    ensures { IsTrue result → delivery.now ≡ Delivery.Skip panel.now upto }
{
    match delivery {
        Delivery::Skip {
            panel: named,
            upto: last,
        } => named == panel && *last == upto,
        _ => false,
    }
}

fn is_tick(delivery: &Delivery, at: i64) -> bool
    ensures { IsTrue result → delivery.now ≡ Delivery.Tick at }
{
    match delivery {
        Delivery::Tick { at: moment } => *moment == at,
        _ => false,
    }
}

/// Whether two entries are the same; each has one spelling.
fn is_same_entry(alloc: Global, entry: &Entry, other: &Entry) -> Result<bool, AllocError>
    ensures { IfOk result (λ same. IsTrue same → entry.now ≡ other.now) }
{
    let text = entry.write(alloc)?;
    let other_text = other.write(alloc)?;
    Ok(text == other_text)
}

fn is_same_row(
    alloc: Global,
    row: &CalendarEntry,
    other: &CalendarEntry,
) -> Result<bool, AllocError>
    ensures { IfOk result (λ same. IsTrue same → row.now ≡ other.now) }
{
    if row.calendar.index != other.calendar.index {
        return Ok(false);
    }
    is_same_entry(alloc, &row.entry, &other.entry)
}

fn are_same_rows(
    alloc: Global,
    rows: &[CalendarEntry],
    others: &[CalendarEntry],
) -> Result<bool, AllocError>
    ensures { IfOk result (λ same. IsTrue same → rows.now ≡ others.now) }
{
    if rows.len() != others.len() {
        return Ok(false);
    }
    for index in 0..rows.len() {
        if !is_same_row(alloc, &rows[index], &others[index])? {
            return Ok(false);
        }
    }
    Ok(true)
}

/// Whether two deliveries are the same. The only error is a failed allocation, for the entries of imports.
pub(crate) fn is_same_delivery(
    alloc: Global,
    delivery: &Delivery,
    other: &Delivery,
) -> Result<bool, AllocError>
    ensures { IfOk result (λ same. IsTrue same → delivery.now ≡ other.now) }
{
    match other {
        Delivery::Command {
            panel,
            number,
            content,
        } => Ok(is_command(delivery, panel, *number, content)),
        Delivery::Skip { panel, upto } => Ok(is_skip(delivery, panel, *upto)),
        Delivery::Tick { at } => Ok(is_tick(delivery, *at)),
        Delivery::Import { rows } => match delivery {
            Delivery::Import { rows: others } => are_same_rows(alloc, others, rows),
            _ => Ok(false),
        },
    }
}
