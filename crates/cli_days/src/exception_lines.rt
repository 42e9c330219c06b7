//! The line of an exception on a day.
ghost use Rattle.std.specs.Prelude.{◌≡◌, ◌++◌, IfOk, OnOk, string_bytes};
ghost use Rattle.cli_days.specs.DayLines.{calendar_text, exception_line, head_text, period_text};

use crate::time_values::{named_times, push_time_values};
use building::Building;
use dates::{Day, weekday_name};
use points::Name;
use sched::{CalId, Exception, Period};
use std::alloc::{AllocError, Global};

fn calendar_text(alloc: Global, building: &Building, id: &CalId) -> Result<String, AllocError>
    ensures { IfOk result (λ text. string_bytes text ≡ calendar_text building.now id.now) }
{
    match building.calendars().get(id.index) {
        Some(calendar) => {
            let name = calendar.name.as_str();
            format!(in alloc; "calendar {name}")
        }
        None => String::from_str(alloc, "a calendar"),
    }
}

fn period_text(alloc: Global, building: &Building, period: &Period) -> Result<String, AllocError>
    ensures { IfOk result (λ text. string_bytes text ≡ period_text building.now period.now) }
{
    match period {
        Period::Entry(entry) => entry.write(alloc),
        Period::Calendar(id) => calendar_text(alloc, building, id),
    }
}

// The day, the schedule, the exception of an index, and its period.
#[tactic(auto, using(crate::proofs::WeekdayLemmas::named_weekday))]
fn head_text(
    alloc: Global,
    day: Day,
    schedule: &Name,
    index: usize,
    period: &str,
) -> Result<String, AllocError>
    ensures { IfOk result (λ text. string_bytes text ≡ head_text day schedule.now index period.now) }
{
    let weekday = weekday_name(day.weekday());
    let schedule = schedule.as_str();
    // wide enough for one more than any index
    let number = index as u128 + 1;
    format!(in alloc; "{day} {weekday} {schedule} exception {number} ({period})")
}

/// Writes the line of an exception of a schedule on a day.
#[tactic(auto, unfolding(crate::specs::DayLines::exception_line))]
pub fn push_exception_line(
    alloc: Global,
    text: &mut String,
    building: &Building,
    day: Day,
    schedule: &Name,
    index: usize,
    exception: &Exception,
) -> Result<(), AllocError>
    ensures { OnOk result (string_bytes text.new
        ≡ string_bytes text.old ++ exception_line building.now day schedule.now index exception.now) }
{
    let period = period_text(alloc, building, &exception.period)?;
    let head = head_text(alloc, day, schedule, index, period.as_str())?;
    let times = named_times(alloc, &exception.times)?;
    text.push_str(head.as_str())?;
    push_time_values(text, &exception.times, times.as_slice())?;
    text.push_str("\n")
}
