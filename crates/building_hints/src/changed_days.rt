//! Hints at the days that an import would change.
ghost use Rattle.std.specs.Prelude.{◌≡◌, ◌++◌, IfOk, OnOk, [], string_bytes};
ghost use Rattle.std.specs.Cmp.Lexicographic.{pointwise};
ghost use Rattle.std.specs.List.{flat_map, list_any};
ghost use Rattle.dates.specs.Entry.{holds_on};
ghost use Rattle.building_hints.specs.ChangedDays.{change_hint, change_line, changes, changes_text, date_text, day_hints, entries_for, month_text, same_segment, with_rows, year_text};

use building::{Building, NamedCalendar, NamedSchedule};
use dates::{Day, Entry, weekday_name};
use points::{Listing, Name};
use sched::{Calendar, CalendarEntry, Schedule, TimeValue};
use std::alloc::{AllocError, Global};

/// An import that is not made: the rows, and the calendars without and with them.
#[derive(Drop)]
struct Import<'a> {
    building: &'a Building,
    rows: &'a [CalendarEntry],
    before: &'a [Calendar],
    after: &'a [Calendar],
}

fn push_entries(entries: &mut Vec<Entry>, more: &[Entry]) -> Result<(), AllocError>
    ensures { OnOk result (entries.new.items ≡ entries.old.items ++ more.now) }
{
    for entry in more {
        entries.push(*entry)?;
    }
    Ok(())
}

// Puts the entries of the rows for a calendar last.
fn push_rows(
    entries: &mut Vec<Entry>,
    rows: &[CalendarEntry],
    index: usize,
) -> Result<(), AllocError>
    ensures { OnOk result (entries.new.items ≡ entries.old.items ++ entries_for index rows.now) }
{
    for row in rows {
        if row.calendar.index == index {
            entries.push(row.entry)?;
        }
    }
    Ok(())
}

fn entries_with(
    alloc: Global,
    calendar: &Calendar,
    rows: &[CalendarEntry],
    index: usize,
) -> Result<Vec<Entry>, AllocError>
    ensures { IfOk result (λ entries. entries.items ≡ calendar.now.entries ++ entries_for index rows.now) }
{
    let mut entries = Vec::new(alloc);
    push_entries(&mut entries, calendar.entries.as_slice())?;
    push_rows(&mut entries, rows, index)?;
    Ok(entries)
}

// The calendars with the entries of the rows.
fn with_rows(
    alloc: Global,
    calendars: &[NamedCalendar],
    rows: &[CalendarEntry],
) -> Result<Vec<Calendar>, AllocError>
    ensures { IfOk result (λ made. made.items ≡ with_rows rows.now 0 calendars.now) }
{
    let mut made = Vec::new(alloc);
    for (index, named) in calendars.iter().enumerate() {
        let entries = entries_with(alloc, &named.calendar, rows, index)?;
        made.push(Calendar {
            entries: Listing::from_vec(entries),
        })?;
    }
    Ok(made)
}

fn are_same(one: &[TimeValue], two: &[TimeValue]) -> bool
    ensures { result ≡ pointwise same_segment one.now two.now }
{
    one == two
}

// Whether the schedule is active on the day, and its segments differ.
fn changes(
    alloc: Global,
    before: &[Calendar],
    after: &[Calendar],
    day: Day,
    schedule: &Schedule,
) -> Result<bool, AllocError>
    ensures { IfOk result (λ it. it ≡ changes before.now after.now day schedule.now) }
{
    if !schedule.active(day) {
        return Ok(false);
    }
    let one = schedule.segments(alloc, before, day)?;
    let two = schedule.segments(alloc, after, day)?;
    Ok(!are_same(one.as_slice(), two.as_slice()))
}

#[tactic(auto, using(crate::proofs::ChangeLemmas::named_weekday))]
fn change_line(alloc: Global, day: Day, name: &Name) -> Result<String, AllocError>
    ensures { IfOk result (λ line. string_bytes line ≡ change_line day name.now) }
{
    format!(in alloc; "{day} {} {name}\n", weekday_name(day.weekday()))
}

fn push_change(
    alloc: Global,
    text: &mut String,
    import: &Import<'_>,
    day: Day,
    schedule: &NamedSchedule,
) -> Result<(), AllocError>
    ensures { OnOk result (string_bytes text.new
        ≡ string_bytes text.old ++ change_hint import.now.before.now import.now.after.now day schedule.now) }
{
    if changes(alloc, import.before, import.after, day, &schedule.schedule)? {
        let line = change_line(alloc, day, &schedule.name)?;
        text.push_str(line.as_str())?;
    }
    Ok(())
}

fn some_row_holds(rows: &[CalendarEntry], day: Day) -> bool
    ensures { result ≡ list_any (λ row. holds_on row.entry day) rows.now }
{
    rows.iter().any(|row| row.entry.holds(day))
}

fn push_schedules(
    alloc: Global,
    text: &mut String,
    import: &Import<'_>,
    day: Day,
) -> Result<(), AllocError>
    ensures { OnOk result (string_bytes text.new
        ≡ string_bytes text.old ++ flat_map (change_hint import.now.before.now import.now.after.now day) import.now.building.now.schedules) }
{
    for schedule in import.building.schedules() {
        push_change(alloc, text, import, day, schedule)?;
    }
    Ok(())
}

// Writes the hints at a day: there are none where no row holds on it.
fn push_day(
    alloc: Global,
    text: &mut String,
    import: &Import<'_>,
    day: Day,
) -> Result<(), AllocError>
    requires before { import.now.before.now ≡ with_rows [] 0 import.now.building.now.calendars }
    requires after { import.now.after.now ≡ with_rows import.now.rows.now 0 import.now.building.now.calendars }
    ensures { OnOk result (string_bytes text.new
        ≡ string_bytes text.old ++ day_hints import.now.building.now.calendars import.now.building.now.schedules import.now.rows.now day) }
{
    if some_row_holds(import.rows, day) {
        push_schedules(alloc, text, import, day)?;
    }
    Ok(())
}

fn push_date(
    alloc: Global,
    text: &mut String,
    import: &Import<'_>,
    year: u16,
    month: u8,
    day: u8,
) -> Result<(), AllocError>
    requires before { import.now.before.now ≡ with_rows [] 0 import.now.building.now.calendars }
    requires after { import.now.after.now ≡ with_rows import.now.rows.now 0 import.now.building.now.calendars }
    ensures { OnOk result (string_bytes text.new ≡ string_bytes text.old ++ date_text
        (day_hints import.now.building.now.calendars import.now.building.now.schedules import.now.rows.now) year month day) }
{
    match Day::new(i32::from(year), month, day) {
        Some(day) => push_day(alloc, text, import, day),
        None => Ok(()),
    }
}

fn push_month(
    alloc: Global,
    text: &mut String,
    import: &Import<'_>,
    year: u16,
    month: u8,
) -> Result<(), AllocError>
    requires before { import.now.before.now ≡ with_rows [] 0 import.now.building.now.calendars }
    requires after { import.now.after.now ≡ with_rows import.now.rows.now 0 import.now.building.now.calendars }
    ensures { OnOk result (string_bytes text.new ≡ string_bytes text.old ++ month_text
        (day_hints import.now.building.now.calendars import.now.building.now.schedules import.now.rows.now) year month) }
{
    for day in 1..32 {
        push_date(alloc, text, import, year, month, day)?;
    }
    Ok(())
}

fn push_year(
    alloc: Global,
    text: &mut String,
    import: &Import<'_>,
    year: u16,
) -> Result<(), AllocError>
    requires before { import.now.before.now ≡ with_rows [] 0 import.now.building.now.calendars }
    requires after { import.now.after.now ≡ with_rows import.now.rows.now 0 import.now.building.now.calendars }
    ensures { OnOk result (string_bytes text.new ≡ string_bytes text.old ++ year_text
        (day_hints import.now.building.now.calendars import.now.building.now.schedules import.now.rows.now) year) }
{
    for month in 1..13 {
        push_month(alloc, text, import, year, month)?;
    }
    Ok(())
}

fn push_years(alloc: Global, text: &mut String, import: &Import<'_>) -> Result<(), AllocError>
    requires before { import.now.before.now ≡ with_rows [] 0 import.now.building.now.calendars }
    requires after { import.now.after.now ≡ with_rows import.now.rows.now 0 import.now.building.now.calendars }
    ensures { OnOk result (string_bytes text.new ≡ string_bytes text.old
        ++ changes_text import.now.building.now.calendars import.now.building.now.schedules import.now.rows.now) }
{
    for year in 1970..2155 {
        push_year(alloc, text, import, year)?;
    }
    Ok(())
}

/// Writes the days from 1970 to 2154 on which the import of the rows, into a desk without earlier imports, would change the
/// values of a schedule that is active.
pub(crate) fn push_changes(
    alloc: Global,
    text: &mut String,
    building: &Building,
    rows: &[CalendarEntry],
) -> Result<(), AllocError>
    ensures { OnOk result (string_bytes text.new
        ≡ string_bytes text.old ++ changes_text building.now.calendars building.now.schedules rows.now) }
{
    let before = with_rows(alloc, building.calendars(), &[])?;
    let after = with_rows(alloc, building.calendars(), rows)?;
    let import = Import {
        building,
        rows,
        before: before.as_slice(),
        after: after.as_slice(),
    };
    push_years(alloc, text, &import)
}
