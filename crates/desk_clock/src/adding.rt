//! The items that the rows of an import add.
ghost use Rattle.std.specs.Prelude.{◌≡◌, ◌++◌, IfOk, List, OnOk, Some, option_map, slice_get};
ghost use Rattle.std.specs.Result.{result_err};
ghost use Rattle.building.specs.Building.{Building as a_building};
ghost use Rattle.deliveries.specs.Machine.{added, added_by, added_to};
ghost use Rattle.desk_clock.specs.Knowing.{Knows, has_in_file, in_file};
ghost use Rattle.desk_settling.specs.Calendars.{Tells, with_items};
ghost use Rattle.store.specs.Standing.{IsOpen, Reads};
ghost use Rattle.points.specs.Texts.{Text};

use crate::known::{Known, add, read_once};
use building::{Building, NamedCalendar};
use dates::Entry;
use sched::CalendarEntry;
use std::alloc::Global;
use store::{ImportedEntry, Store, StoreFault};

fn calendar_at(building: &Building, place: usize) -> Option<&NamedCalendar>
    ensures { option_map (λ calendar. calendar.now) result ≡ slice_get building.now.calendars place }
{
    building.calendars().get(place)
}

// Adds the item of an entry for a calendar that does not know it.
fn add_to<S: Store>(
    alloc: Global,
    store: &mut S,
    known: &mut Known,
    items: &mut Vec<ImportedEntry>,
    calendar: &NamedCalendar,
    entry: &Entry,
) -> Result<(), StoreFault>
    requires open { IsOpen (S.standing store.old) }
    ensures reads { Reads (result_err result) (S.standing store.old) (S.standing store.new) }
    ensures knows { (S.standing store.new).is_honest → (building : a_building)
        → ((text : Text) → in_file building calendar.now.name text ≡ has_in_file calendar.now text)
        → Knows known.old building (S.standing store.old).content.tables.imported items.old.items
        → OnOk result (Knows known.new building (S.standing store.old).content.tables.imported items.new.items) }
    ensures adds { (S.standing store.new).is_honest → (building : a_building)
        → ((text : Text) → in_file building calendar.now.name text ≡ has_in_file calendar.now text)
        → Knows known.old building (S.standing store.old).content.tables.imported items.old.items
        → (imported : Text → List Text)
        → Tells (S.standing store.old).content.tables.imported imported
        → OnOk result (items.new.items ≡ items.old.items ++ added_to (with_items imported items.old.items) entry.now (Some calendar.now)) }
{
    read_once(alloc, store, known, calendar)?;
    let text = entry.write(alloc)?;
    if known.texts.has(&calendar.name, &text) {
        return Ok(());
    }
    let item = ImportedEntry {
        calendar: calendar.name,
        entry: *entry,
    };
    add(alloc, known, &item, text)?;
    items.push(item)?;
    Ok(())
}

/// Adds the item of a row to those of the rows before it, where its calendar knows the entry neither from the file, nor
/// from what was imported, nor from these items. A row of no calendar adds nothing. The store is only read, and of each
/// calendar once.
pub fn add_row<S: Store>(
    alloc: Global,
    store: &mut S,
    building: &Building,
    known: &mut Known,
    items: &mut Vec<ImportedEntry>,
    row: &CalendarEntry,
) -> Result<(), StoreFault>
    requires open { IsOpen (S.standing store.old) }
    ensures reads { Reads (result_err result) (S.standing store.old) (S.standing store.new) }
    ensures knows { (S.standing store.new).is_honest
        → Knows known.old building.now (S.standing store.old).content.tables.imported items.old.items
        → OnOk result (Knows known.new building.now (S.standing store.old).content.tables.imported items.new.items) }
    ensures adds { (S.standing store.new).is_honest
        → Knows known.old building.now (S.standing store.old).content.tables.imported items.old.items
        → (imported : Text → List Text)
        → Tells (S.standing store.old).content.tables.imported imported
        → OnOk result (items.new.items ≡ items.old.items ++ added_by building.now (with_items imported items.old.items) row.now) }
{
    // No two calendars of a building have one name.
    building.names_are_distinct();
    match calendar_at(building, row.calendar.index) {
        Some(calendar) => add_to(alloc, store, known, items, calendar, &row.entry),
        None => Ok(()),
    }
}

/// The items that rows add, each beside those before it. The entries of each calendar that a row names are read once.
pub fn added_items<S: Store>(
    alloc: Global,
    store: &mut S,
    building: &Building,
    rows: &[CalendarEntry],
) -> Result<Vec<ImportedEntry>, StoreFault>
    requires open { IsOpen (S.standing store.old) }
    ensures reads { Reads (result_err result) (S.standing store.old) (S.standing store.new) }
    ensures added { (S.standing store.new).is_honest → (imported : Text → List Text)
        → Tells (S.standing store.old).content.tables.imported imported
        → IfOk result (λ items. items.items ≡ added building.now imported rows.now) }
{
    let mut known = Known::new(alloc);
    let mut items = Vec::new(alloc);
    for row in rows {
        add_row(alloc, store, building, &mut known, &mut items, row)?;
    }
    Ok(items)
}
