//! Hints at calendars.
ghost use Rattle.std.specs.Prelude.{◌≡◌, ◌++◌, OnOk, string_bytes};
ghost use Rattle.std.specs.List.{list_any};
ghost use Rattle.building_hints.specs.HintLines.{calendar_hints, entry_hint, is_for, numbered, unused_hint, uses};

use crate::entry_days::holds_on_some_day;
use building::{NamedCalendar, NamedSchedule};
use dates::Entry;
use points::Name;
use sched::{Exception, Period};
use std::alloc::AllocError;
use std::fmt::Write;

// Writes a hint where the entry of this number holds on no day.
fn push_entry(text: &mut String, name: &Name, number: u64, entry: &Entry) -> Result<(), AllocError>
    ensures { OnOk result (string_bytes text.new ≡ string_bytes text.old ++ entry_hint name.now number entry.now) }
{
    if !holds_on_some_day(entry) {
        write!(
            text,
            "calendar {name}: entry {number} ({entry}) holds on no day\n"
        )?;
    }
    Ok(())
}

fn push_entries(text: &mut String, name: &Name, entries: &[Entry]) -> Result<(), AllocError>
    ensures { OnOk result (string_bytes text.new ≡ string_bytes text.old ++ numbered (entry_hint name.now) 1 entries.now) }
{
    for (index, entry) in entries.iter().enumerate() {
        push_entry(text, name, index as u64 + 1, entry)?;
    }
    Ok(())
}

fn is_for(exception: &Exception, index: usize) -> bool
    ensures { result ≡ is_for index exception.now.period }
{
    match exception.period {
        Period::Entry(_) => false,
        Period::Calendar(id) => id.index == index,
    }
}

fn uses(schedule: &NamedSchedule, index: usize) -> bool
    ensures { result ≡ uses index schedule.now }
{
    schedule
        .schedule
        .exceptions
        .as_slice()
        .iter()
        .any(|it| is_for(it, index))
}

// Whether an exception uses the calendar at an index.
fn is_used(schedules: &[NamedSchedule], index: usize) -> bool
    ensures { result ≡ list_any (uses index) schedules.now }
{
    schedules.iter().any(|it| uses(it, index))
}

fn push_unused(
    text: &mut String,
    name: &Name,
    index: usize,
    schedules: &[NamedSchedule],
) -> Result<(), AllocError>
    ensures { OnOk result (string_bytes text.new ≡ string_bytes text.old ++ unused_hint schedules.now index name.now) }
{
    if !is_used(schedules, index) {
        write!(text, "calendar {name}: no exception uses it\n")?;
    }
    Ok(())
}

fn push_calendar(
    text: &mut String,
    index: usize,
    calendar: &NamedCalendar,
    schedules: &[NamedSchedule],
) -> Result<(), AllocError>
    ensures { OnOk result (string_bytes text.new ≡ string_bytes text.old ++ calendar_hints schedules.now index calendar.now) }
{
    push_entries(text, &calendar.name, calendar.calendar.entries.as_slice())?;
    push_unused(text, &calendar.name, index, schedules)
}

/// Writes the hints at calendars: their entries that hold on no day, and that no exception uses one.
pub(crate) fn push_calendars(
    text: &mut String,
    calendars: &[NamedCalendar],
    schedules: &[NamedSchedule],
) -> Result<(), AllocError>
    ensures { OnOk result (string_bytes text.new
        ≡ string_bytes text.old ++ numbered (calendar_hints schedules.now) 0 calendars.now) }
{
    for (index, calendar) in calendars.iter().enumerate() {
        push_calendar(text, index, calendar, schedules)?;
    }
    Ok(())
}
