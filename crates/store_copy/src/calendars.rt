//! The imported entries of calendars.
ghost use Rattle.std.specs.Prelude.{◌≡◌, ◌||◌, ◌++◌, false, if◌then◌else◌, map, IfOk, OnOk};
ghost use Rattle.std.specs.Result.{result_err};
ghost use Rattle.std.specs.Str.{bytes_eq};
ghost use Rattle.points.specs.Texts.{Text};
ghost use Rattle.store.specs.Change.{with_each, with_imported};
ghost use Rattle.store.specs.Standing.{IsOpen, Reads};
ghost use Rattle.store.specs.Tables.{no_tables};
ghost use Rattle.store_copy.specs.Named.{at_names, item_for};

use dates::Entry;
use points::Name;
use std::alloc::{AllocError, Global};
use store::{ImportedEntry, Store, StoreFault};

/// Puts a calendar's entries last.
fn add_list(
    items: &mut Vec<ImportedEntry>,
    calendar: &Name,
    entries: &[Entry],
) -> Result<(), AllocError>
    ensures { OnOk result (items.new.items ≡ items.old.items ++ map (item_for calendar.now) entries.now) }
{
    for entry in entries {
        items.push(ImportedEntry {
            calendar: *calendar,
            entry: *entry,
        })?;
    }
    Ok(())
}

/// Puts the entries last that are imported into a calendar.
fn add_entries<S: Store>(
    store: &mut S,
    items: &mut Vec<ImportedEntry>,
    calendar: &Name,
) -> Result<(), StoreFault>
    requires open { IsOpen (S.standing store.old) }
    ensures reads { Reads (result_err result) (S.standing store.old) (S.standing store.new) }
    ensures added { (S.standing store.new).is_honest → OnOk result ((q text : Text)
        → with_each with_imported items.new.items no_tables.imported q text
        ≡ (if bytes_eq calendar.now q
        then (S.standing store.old).content.tables.imported calendar.now text || with_each with_imported items.old.items no_tables.imported q text
        else with_each with_imported items.old.items no_tables.imported q text)) }
{
    let entries = store.entries(calendar)?;
    add_list(items, calendar, entries.as_slice())?;
    Ok(())
}

/// The imported entries of calendars.
pub fn entries_of<S: Store>(
    alloc: Global,
    store: &mut S,
    calendars: &[Name],
) -> Result<Vec<ImportedEntry>, StoreFault>
    requires open { IsOpen (S.standing store.old) }
    ensures reads { Reads (result_err result) (S.standing store.old) (S.standing store.new) }
    ensures named { (S.standing store.new).is_honest → IfOk result (λ items. (q text : Text)
        → with_each with_imported items.items no_tables.imported q text
        ≡ at_names calendars.now (λ calendar. (S.standing store.old).content.tables.imported calendar text) false q) }
{
    let mut items = Vec::new(alloc);
    for calendar in calendars {
        add_entries(store, &mut items, calendar)?;
    }
    Ok(items)
}
