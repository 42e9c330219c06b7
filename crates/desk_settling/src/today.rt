//! Which calendars hold on a day.
ghost use Rattle.std.specs.Prelude.{◌≡◌, ◌&&◌, IfOk, List, true};
ghost use Rattle.std.specs.List.{All, list_any};
ghost use Rattle.std.specs.Result.{result_err};
ghost use Rattle.std.specs.Str.{bytes_eq};
ghost use Rattle.dates.specs.declared.entry.Entry.{Entry as an_entry};
ghost use Rattle.dates.specs.Entry.{IsEntry, holds_on};
ghost use Rattle.jiff_core.specs.declared.civil.date.Date.{Date};
ghost use Rattle.sched.specs.Calendar.{calendar_holds, hold_on};
ghost use Rattle.desk_settling.specs.Calendars.{Tells, calendars_of, with_items, with_texts};
ghost use Rattle.store.specs.declared.change.ImportedEntry.{ImportedEntry as an_item};
ghost use Rattle.store.specs.Standing.{IsOpen, Reads};
ghost use Rattle.points.specs.Texts.{Text};

use building::{Building, NamedCalendar};
use dates::{Day, Entry, Range};
use points::{Listing, Name};
use sched::Calendar;
use std::alloc::{AllocError, Global};
use store::{ImportedEntry, Store, StoreFault};

// Each entry's numbers lie in their ranges: this holds of all entries, and nothing is done.
fn lie_in_range(entries: &[Entry])
    ensures { All IsEntry entries.now }
{
    for entry in entries {
        entry.lies_in_range();
    }
}

// The same of items.
fn have_ranges(items: &[ImportedEntry])
    ensures { All (λ (item : an_item). IsEntry item.entry) items.now }
{
    for item in items {
        item.entry.lies_in_range();
    }
}

// Whether one of the entries holds on the day.
fn any_holds(entries: &[Entry], day: Day) -> bool
    ensures { result ≡ list_any (λ (entry : an_entry). holds_on entry day) entries.now }
{
    entries.iter().any(|entry| entry.holds(day))
}

// Whether one of the items for a calendar holds on the day.
fn any_item_holds(items: &[ImportedEntry], calendar: &Name, day: Day) -> bool
    ensures { result ≡ list_any (λ (item : an_item). bytes_eq item.calendar calendar.now && holds_on item.entry day) items.now }
{
    items
        .iter()
        .any(|item| item.calendar == *calendar && item.entry.holds(day))
}

// Whether a calendar holds on the day: by the file, by what was imported, or by these items.
fn holds_today<S: Store>(
    store: &mut S,
    calendar: &NamedCalendar,
    items: &[ImportedEntry],
    day: Day,
) -> Result<bool, StoreFault>
    ensures reads { Reads (result_err result) (S.standing store.old) (S.standing store.new) }
    ensures holds { (S.standing store.new).is_honest → (imported : Text → List Text)
        → Tells (S.standing store.old).content.tables.imported imported
        → IfOk result (λ holds. holds ≡ calendar_holds (with_texts (with_items imported items.now) calendar.now) day) }
{
    let kept = store.entries(&calendar.name)?;
    lie_in_range(kept.as_slice());
    have_ranges(items);
    let by_file = calendar.calendar.holds(day);
    let by_store = any_holds(kept.as_slice(), day);
    let by_items = any_item_holds(items, &calendar.name, day);
    Ok(by_file || by_store || by_items)
}

// An entry that holds on each day.
#[tactic(auto, unfolding(dates::specs::Entry::holds_on))]
fn each_day() -> Entry
    ensures { (day : Date) → holds_on result day ≡ true }
{
    Entry::Range(Range {
        start: None,
        end: None,
    })
}

// A calendar that holds on each day, or on none.
fn calendar_that(alloc: Global, holds: bool) -> Result<Calendar, AllocError>
    ensures { IfOk result (λ calendar. (day : Date) → calendar_holds calendar day ≡ holds) }
{
    if !holds {
        return Ok(Calendar {
            entries: Listing::from_vec(Vec::new(alloc)),
        });
    }
    let entries = Vec::from_array(alloc, [each_day()])?;
    Ok(Calendar {
        entries: Listing::from_vec(entries),
    })
}

/// Calendars that hold on the day where those of the building do, with what was imported and with these items:
/// each is asked once, however many schedules name it.
pub fn calendars_today<S: Store>(
    alloc: Global,
    store: &mut S,
    building: &Building,
    items: &[ImportedEntry],
    day: Day,
) -> Result<Vec<Calendar>, StoreFault>
    requires open { IsOpen (S.standing store.old) }
    ensures reads { Reads (result_err result) (S.standing store.old) (S.standing store.new) }
    ensures today { (S.standing store.new).is_honest → (imported : Text → List Text)
        → Tells (S.standing store.old).content.tables.imported imported
        → IfOk result (λ today. hold_on day today.items ≡ hold_on day (calendars_of building.now (with_items imported items.now))) }
{
    let mut today = Vec::new(alloc);
    for calendar in building.calendars() {
        let holds = holds_today(store, calendar, items, day)?;
        today.push(calendar_that(alloc, holds)?)?;
    }
    Ok(today)
}
