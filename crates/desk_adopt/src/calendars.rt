//! The imported entries of calendars.
ghost use Rattle.std.specs.Prelude.{◌≡◌, ◌&&◌, ◌||◌, ◌++◌, Bool, false, map, IfOk, OnOk};
ghost use Rattle.std.specs.List.{list_any};
ghost use Rattle.std.specs.Result.{result_err};
ghost use Rattle.std.specs.Str.{bytes_eq};
ghost use Rattle.desk_adopt.specs.Adopted.{no_entries};
ghost use Rattle.desk_adopt.specs.Renamed.{at_items, former};
ghost use Rattle.building.specs.declared.named_calendar.NamedCalendar.{NamedCalendar as a_calendar};
ghost use Rattle.store_memory.specs.Items.{item_for};
ghost use Rattle.store.specs.Change.{with_each, with_imported};
ghost use Rattle.store.specs.Standing.{IsOpen, Reads};
ghost use Rattle.points.specs.Texts.{Text};

use crate::renaming::{Renaming, former_name};
use building::NamedCalendar;
use dates::Entry;
use points::Name;
use std::alloc::{AllocError, Global};
use store::{ImportedEntry, Store, StoreFault};

/// Puts a calendar's entries last.
fn keep_entries(
    items: &mut Vec<ImportedEntry>,
    calendar: &Name,
    entries: &[Entry],
) -> Result<(), AllocError>
    ensures { OnOk result (items.new.items ≡ items.old.items ++ map (item_for calendar.now) entries.now) }
{
    for entry in entries {
        items.push(ImportedEntry {
            calendar: *calendar,
            entry: *entry,
        })?;
    }
    Ok(())
}

/// Puts the entries last that a calendar of the building has in the tables.
fn adopt_entries<S: Store>(
    store: &mut S,
    items: &mut Vec<ImportedEntry>,
    renamings: &[Renaming],
    calendar: &Name,
) -> Result<(), StoreFault>
    requires open { IsOpen (S.standing store.old) }
    ensures reads { Reads (result_err result) (S.standing store.old) (S.standing store.new) }
    ensures kept { (S.standing store.new).is_honest → OnOk result ((q text : Text)
        → with_each with_imported items.new.items (λ _. no_entries) q text
        ≡ ((bytes_eq calendar.now q && former renamings.now (S.standing store.old).content.tables.imported no_entries calendar.now text)
        || with_each with_imported items.old.items (λ _. no_entries) q text)) }
{
    match former_name(renamings, calendar) {
        Some(former) => {
            let entries = store.entries(&former)?;
            keep_entries(items, calendar, entries.as_slice())?;
            Ok(())
        }
        None => Ok(()),
    }
}

/// The imported entries of the building's calendars.
pub fn adopted_entries<S: Store>(
    alloc: Global,
    store: &mut S,
    renamings: &[Renaming],
    calendars: &[NamedCalendar],
) -> Result<Vec<ImportedEntry>, StoreFault>
    requires open { IsOpen (S.standing store.old) }
    ensures reads { Reads (result_err result) (S.standing store.old) (S.standing store.new) }
    ensures kept { (S.standing store.new).is_honest → IfOk result (λ items. (q text : Text)
        → with_each with_imported items.items (λ _. no_entries) q text
        ≡ at_items (λ (it : a_calendar). it.name) calendars.now
        (λ name. former renamings.now (S.standing store.old).content.tables.imported no_entries name text) false q) }
{
    let mut items = Vec::new(alloc);
    for calendar in calendars {
        adopt_entries(store, &mut items, renamings, &calendar.name)?;
    }
    Ok(items)
}
