//! Hints at schedules.
ghost use Rattle.std.specs.Prelude.{◌≡◌, ◌++◌, OnOk, string_bytes};
ghost use Rattle.std.specs.List.{flat_map};
ghost use Rattle.building_hints.specs.HintLines.{exception_hints, no_period_hint, no_target_hint, null_hint, numbered, period_hint, schedule_hints};

use crate::entry_days::holds_on_some_day;
use crate::null_lists::is_null_all_day;
use building::NamedSchedule;
use dates::Entry;
use points::Name;
use sched::{Exception, Period};
use std::alloc::AllocError;
use std::fmt::Write;

fn push_no_target(text: &mut String, schedule: &NamedSchedule) -> Result<(), AllocError>
    ensures { OnOk result (string_bytes text.new ≡ string_bytes text.old ++ no_target_hint schedule.now.name schedule.now.targets) }
{
    if schedule.targets.as_slice().is_empty() {
        write!(text, "schedule {}: no target\n", schedule.name)?;
    }
    Ok(())
}

fn push_no_period(text: &mut String, schedule: &NamedSchedule) -> Result<(), AllocError>
    ensures { OnOk result (string_bytes text.new ≡ string_bytes text.old ++ no_period_hint schedule.now) }
{
    let period = Entry::Range(schedule.schedule.effective_period);
    if !holds_on_some_day(&period) {
        write!(
            text,
            "schedule {}: its effective period holds on no day\n",
            schedule.name
        )?;
    }
    Ok(())
}

// Writes a hint where the entry of the exception of this number holds on no day.
fn push_period(
    text: &mut String,
    name: &Name,
    number: u64,
    period: &Period,
) -> Result<(), AllocError>
    ensures { OnOk result (string_bytes text.new ≡ string_bytes text.old ++ period_hint name.now number period.now) }
{
    if let Period::Entry(entry) = period {
        if !holds_on_some_day(entry) {
            write!(
                text,
                "schedule {name}: exception {number} ({entry}) holds on no day\n"
            )?;
        }
    }
    Ok(())
}

// Writes a hint where the exception of this number has no value at any time.
fn push_null(
    text: &mut String,
    name: &Name,
    number: u64,
    exception: &Exception,
) -> Result<(), AllocError>
    ensures { OnOk result (string_bytes text.new ≡ string_bytes text.old ++ null_hint name.now number exception.now) }
{
    if is_null_all_day(&exception.times) {
        write!(
            text,
            "schedule {name}: exception {number} is NULL all day, so the weekly list speaks\n"
        )?;
    }
    Ok(())
}

fn push_exception(
    text: &mut String,
    name: &Name,
    number: u64,
    exception: &Exception,
) -> Result<(), AllocError>
    ensures { OnOk result (string_bytes text.new ≡ string_bytes text.old ++ exception_hints name.now number exception.now) }
{
    push_period(text, name, number, &exception.period)?;
    push_null(text, name, number, exception)
}

fn push_exceptions(
    text: &mut String,
    name: &Name,
    exceptions: &[Exception],
) -> Result<(), AllocError>
    ensures { OnOk result (string_bytes text.new ≡ string_bytes text.old ++ numbered (exception_hints name.now) 1 exceptions.now) }
{
    for (index, exception) in exceptions.iter().enumerate() {
        push_exception(text, name, index as u64 + 1, exception)?;
    }
    Ok(())
}

fn push_schedule(text: &mut String, schedule: &NamedSchedule) -> Result<(), AllocError>
    ensures { OnOk result (string_bytes text.new ≡ string_bytes text.old ++ schedule_hints schedule.now) }
{
    push_no_target(text, schedule)?;
    push_no_period(text, schedule)?;
    push_exceptions(
        text,
        &schedule.name,
        schedule.schedule.exceptions.as_slice(),
    )
}

/// Writes the hints at schedules: that one has no target or no day, and their exceptions that hold on no day or have no
/// value.
pub(crate) fn push_schedules(
    text: &mut String,
    schedules: &[NamedSchedule],
) -> Result<(), AllocError>
    ensures { OnOk result (string_bytes text.new ≡ string_bytes text.old ++ flat_map schedule_hints schedules.now) }
{
    for schedule in schedules {
        push_schedule(text, schedule)?;
    }
    Ok(())
}
