//! The calendars of a building, with the entries that were imported.
ghost use Rattle.std.specs.Prelude.{◌≡◌, ◌++◌, IfOk, List, OnOk};
ghost use Rattle.std.specs.List.{All};
ghost use Rattle.dates.specs.Entry.{IsEntry};
ghost use Rattle.jiff_core.specs.declared.civil.date.Date.{Date};
ghost use Rattle.desk_settling.specs.Calendars.{Tells, calendars_of, with_texts};
ghost use Rattle.points.specs.Texts.{Text};
ghost use Rattle.sched.specs.Calendar.{calendar_holds, hold_on};

use building::{Building, NamedCalendar};
use dates::Entry;
use points::Listing;
use sched::Calendar;
use std::alloc::{AllocError, Global};
use store::{Store, StoreFault};

// Each entry's numbers lie in their ranges: this holds of all entries, and nothing is done.
fn lie_in_range(entries: &[Entry])
    ensures { All IsEntry entries.now }
{
    for entry in entries {
        entry.lies_in_range();
    }
}

fn joined(alloc: Global, file: &[Entry], imported: &[Entry]) -> Result<Calendar, AllocError>
    ensures { IfOk result (λ calendar. calendar.entries ≡ file.now ++ imported.now) }
{
    let mut entries = Vec::new(alloc);
    entries.extend_from_slice(file)?;
    entries.extend_from_slice(imported)?;
    Ok(Calendar {
        entries: Listing::from_vec(entries),
    })
}

// A calendar with its entries in the store. It holds on the same days as in any order of these.
fn calendar_with<S: Store>(
    alloc: Global,
    store: &mut S,
    calendar: &NamedCalendar,
) -> Result<Calendar, StoreFault>
    ensures honest { (S.standing store.new).is_honest → (S.standing store.old).is_honest }
    ensures kept { (S.standing store.new).is_honest → OnOk result ((S.standing store.new).content ≡ (S.standing store.old).content) }
    ensures holds { (S.standing store.new).is_honest → (imported : Text → List Text)
        → Tells (S.standing store.old).content.tables.imported imported
        → IfOk result (λ found. (day : Date) → calendar_holds found day ≡ calendar_holds (with_texts imported calendar.now) day) }
{
    let imported = store.entries(&calendar.name)?;
    lie_in_range(imported.as_slice());
    Ok(joined(
        alloc,
        calendar.calendar.entries.as_slice(),
        imported.as_slice(),
    )?)
}

/// The calendars of a building, each at its place, with the entries that were imported. The store is only read.
pub fn calendars_with<S: Store>(
    alloc: Global,
    store: &mut S,
    building: &Building,
) -> Result<Vec<Calendar>, StoreFault>
    ensures honest { (S.standing store.new).is_honest → (S.standing store.old).is_honest }
    ensures kept { (S.standing store.new).is_honest → OnOk result ((S.standing store.new).content ≡ (S.standing store.old).content) }
    ensures hold { (S.standing store.new).is_honest → (imported : Text → List Text)
        → Tells (S.standing store.old).content.tables.imported imported
        → IfOk result (λ calendars. (day : Date) → hold_on day calendars.items ≡ hold_on day (calendars_of building.now imported)) }
{
    let mut calendars = Vec::new(alloc);
    for calendar in building.calendars() {
        calendars.push(calendar_with(alloc, store, calendar)?)?;
    }
    Ok(calendars)
}
