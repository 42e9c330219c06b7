//! What put a value in a place, as a text.
ghost use Rattle.std.specs.Prelude.{◌≡◌, IfOk, string_bytes};
ghost use Rattle.desk_why.specs.AuthorText.{after_text, author_text, calendar_text, moment_text, period_text, settling_text, shown_text, source_text};

use crate::author::{Author, Settling};
use crate::words::title_of;
use building::Building;
use local_times::{LocalTime, local_time};
use sched::{CalId, Period, Source};
use std::alloc::{AllocError, Global};

// What the building's clock shows at a moment; the moment itself, where that can't be had.
fn shown_text(alloc: Global, moment: i64, local: Option<LocalTime>) -> Result<String, AllocError>
    ensures { IfOk result (λ text. string_bytes text ≡ shown_text moment local) }
{
    match local {
        Some(LocalTime { day, time }) => format!(in alloc; "{day} {time}"),
        None => moment.to_string(alloc),
    }
}

/// What the building's clock shows at a moment, as `YYYY-MM-DD HH:MM:SS.hh`; where it shows nothing the moment itself.
pub fn moment_text(alloc: Global, building: &Building, moment: i64) -> Result<String, AllocError>
    ensures { IfOk result (λ text. string_bytes text ≡ moment_text building.now moment) }
{
    shown_text(alloc, moment, local_time(building.zone(), moment))
}

// The last tick that was before a command.
fn after_text(alloc: Global, building: &Building, after: Option<i64>) -> Result<String, AllocError>
    ensures { IfOk result (λ text. string_bytes text ≡ after_text building.now after) }
{
    match after {
        Some(moment) => {
            let moment = moment_text(alloc, building, moment)?;
            format!(in alloc; "after the tick at {moment}")
        }
        None => String::from_str(alloc, "before any tick"),
    }
}

fn settling_text(
    alloc: Global,
    building: &Building,
    settling: &Settling,
) -> Result<String, AllocError>
    ensures { IfOk result (λ text. string_bytes text ≡ settling_text building.now settling.now) }
{
    match settling {
        Settling::Tick { at } => {
            let moment = moment_text(alloc, building, *at)?;
            format!(in alloc; "at the tick at {moment}")
        }
        Settling::Import { after } => {
            let moment = moment_text(alloc, building, *after)?;
            format!(in alloc; "at an import after the tick at {moment}")
        }
    }
}

fn calendar_text(alloc: Global, building: &Building, id: &CalId) -> Result<String, AllocError>
    ensures { IfOk result (λ text. string_bytes text ≡ calendar_text building.now id.now) }
{
    match building.calendars().get(id.index) {
        Some(calendar) => {
            let name = calendar.name.as_str();
            format!(in alloc; "calendar {name}")
        }
        None => String::from_str(alloc, "a calendar"),
    }
}

fn period_text(alloc: Global, building: &Building, period: &Period) -> Result<String, AllocError>
    ensures { IfOk result (λ text. string_bytes text ≡ period_text building.now period.now) }
{
    match period {
        Period::Entry(entry) => entry.write(alloc),
        Period::Calendar(id) => calendar_text(alloc, building, id),
    }
}

/// Which list of a schedule gives its value, or its default.
pub fn source_text(
    alloc: Global,
    building: &Building,
    source: &Source,
) -> Result<String, AllocError>
    ensures { IfOk result (λ text. string_bytes text ≡ source_text building.now source.now) }
{
    match source {
        Source::Exception { index, period } => {
            let period = period_text(alloc, building, period)?;
            // wide enough for one more than any index
            let number = *index as u128 + 1;
            format!(in alloc; "exception {number} ({period})")
        }
        Source::Weekly { day } => {
            let weekday = title_of(*day);
            format!(in alloc; "weekly ({weekday})")
        }
        Source::Default => String::from_str(alloc, "its default"),
    }
}

/// What put a value in a place.
pub fn author_text(
    alloc: Global,
    building: &Building,
    author: &Author,
) -> Result<String, AllocError>
    ensures { IfOk result (λ text. string_bytes text ≡ author_text building.now author.now) }
{
    match author {
        Author::Command {
            panel,
            number,
            after,
        } => {
            let after = after_text(alloc, building, *after)?;
            let panel = panel.as_str();
            format!(in alloc; "panel {panel} #{number}, {after}")
        }
        Author::Schedule {
            schedule,
            source,
            settling,
        } => {
            let source = source_text(alloc, building, source)?;
            let settling = settling_text(alloc, building, settling)?;
            let schedule = schedule.as_str();
            format!(in alloc; "schedule {schedule}, {source}, {settling}")
        }
        Author::BeforeRecord => String::from_str(alloc, "before the record"),
    }
}
