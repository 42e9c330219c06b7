//! What is looked at before a desk is opened over a store.
ghost use Rattle.std.specs.Prelude.{◌≡◌, OnOk, false};
ghost use Rattle.std.specs.List.{list_all, list_any};
ghost use Rattle.std.specs.Result.{result_err};
ghost use Rattle.store.specs.Asked.Asked.{EntriesOf, NextOf};
ghost use Rattle.store.specs.Standing.{IsOpen, Reads};
ghost use Rattle.desk.specs.Opening.{HaveStood, Opens, are_known, has_calendar, has_panel, has_point, has_schedule, is_ticked};

use building::{Building, NamedCalendar};
use local_times::local_time;
use points::Name;
use store::{Names, Store, StoreFault, read_nexts};

fn has_panel(building: &Building, name: &Name) -> bool
    ensures { result ≡ has_panel building.now name.now }
{
    building.find_panel(name).is_some()
}

fn has_point(building: &Building, name: &Name) -> bool
    ensures { result ≡ has_point building.now name.now }
{
    building.find_point(name).is_some()
}

fn has_schedule(building: &Building, name: &Name) -> bool
    ensures { result ≡ has_schedule building.now name.now }
{
    building.schedule_index(name).is_some()
}

fn has_calendar(building: &Building, name: &Name) -> bool
    ensures { result ≡ has_calendar building.now name.now }
{
    building.calendar_index(name).is_some()
}

fn are_panels(building: &Building, names: &[Name]) -> bool
    ensures { result ≡ list_all (has_panel building.now) names.now }
{
    names.iter().all(|name| has_panel(building, name))
}

fn are_points(building: &Building, names: &[Name]) -> bool
    ensures { result ≡ list_all (has_point building.now) names.now }
{
    names.iter().all(|name| has_point(building, name))
}

fn are_schedules(building: &Building, names: &[Name]) -> bool
    ensures { result ≡ list_all (has_schedule building.now) names.now }
{
    names.iter().all(|name| has_schedule(building, name))
}

fn are_calendars(building: &Building, names: &[Name]) -> bool
    ensures { result ≡ list_all (has_calendar building.now) names.now }
{
    names.iter().all(|name| has_calendar(building, name))
}

// Whether each of the names is one of the building's.
fn are_known(building: &Building, names: &Names) -> bool
    ensures { result ≡ are_known building.now names.now }
{
    are_panels(building, &names.panels)
        && are_points(building, &names.points)
        && are_schedules(building, &names.schedules)
        && are_calendars(building, &names.calendars)
}

// Reads the entries of each calendar.
fn read_entries<S: Store>(store: &mut S, calendars: &[NamedCalendar]) -> Result<(), StoreFault>
    requires { IsOpen (S.standing store.old) }
    ensures reads { Reads (result_err result) (S.standing store.old) (S.standing store.new) }
    ensures stood { (S.standing store.new).is_honest → OnOk result
        (list_any (λ calendar. (S.standing store.old).cannot_stand (EntriesOf calendar.name)) calendars.now ≡ false) }
{
    for calendar in calendars {
        let _entries = store.entries(&calendar.name)?;
    }
    Ok(())
}

// Whether the building's clock shows a time at the moment of the last tick, if there was one.
fn is_ticked(building: &Building, last: Option<i64>) -> bool
    ensures { result ≡ is_ticked building.now last }
{
    match last {
        None => true,
        Some(moment) => local_time(building.zone(), moment).is_some(),
    }
}

// Reads what a desk rests on beside the names and the last tick.
fn read_rows<S: Store>(
    store: &mut S,
    building: &Building,
    panels: &[Name],
) -> Result<(), StoreFault>
    requires { IsOpen (S.standing store.old) }
    ensures reads { Reads (result_err result) (S.standing store.old) (S.standing store.new) }
    ensures stood { (S.standing store.new).is_honest
        → OnOk result (HaveStood building.now.calendars panels.now (S.standing store.old)) }
{
    read_entries(store, building.calendars())?;
    read_nexts(store, panels)
}

/// Looks over a store before a desk of a building is opened on it: that each name in its tables is one of the
/// building's, that the last tick was at a moment, and that the rows of entries and of next numbers can stand. Else
/// S5, or as the store answers. The store is only read.
pub fn look_over<S: Store>(store: &mut S, building: &Building) -> Result<(), StoreFault>
    ensures { Opens building.now (result_err result) (S.standing store.old) (S.standing store.new) }
{
    let names = store.names()?;
    if !are_known(building, &names) {
        return Err(StoreFault::BadRow);
    }
    let last = store.last_tick()?;
    if !is_ticked(building, last) {
        return Err(StoreFault::BadRow);
    }
    read_rows(store, building, names.panels.as_slice())
}
