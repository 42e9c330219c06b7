//! The lines of the next changes.
ghost use Rattle.std.specs.Prelude.{◌≡◌, ◌++◌, IfOk, OnOk, codes, string_bytes};
ghost use Rattle.std.specs.List.{flat_map};
ghost use Rattle.sched.specs.TimeText.{time_text};
ghost use Rattle.desk_why.specs.WhyLines.{next_line, value_text};

use crate::author_texts::source_text;
use crate::scheduled::ScheduledChange;
use crate::words::{TITLE_WIDTH, VALUE_WIDTH, left_in, right_in};
use building::Building;
use sched::Time;
use std::alloc::{AllocError, Global};

fn value_text(alloc: Global, value: Option<i64>) -> Result<String, AllocError>
    ensures { IfOk result (λ text. string_bytes text ≡ value_text value) }
{
    match value {
        Some(value) => value.to_string(alloc),
        None => String::from_str(alloc, "NULL"),
    }
}

fn title(alloc: Global, time: Time) -> Result<String, AllocError>
    ensures { IfOk result (λ text. string_bytes text ≡ codes "Next at " ++ time_text time) }
{
    format!(in alloc; "Next at {time}")
}

// The line of a change.
#[tactic(auto, unfolding(crate::specs::WhyLines::next_line))]
fn next_line(
    alloc: Global,
    building: &Building,
    next: &ScheduledChange,
) -> Result<String, AllocError>
    ensures { IfOk result (λ line. string_bytes line ≡ next_line building.now next.now) }
{
    let title = title(alloc, next.change.time)?;
    let value = value_text(alloc, next.change.value)?;
    let source = source_text(alloc, building, &next.change.source)?;
    let title = left_in(alloc, title.as_str(), TITLE_WIDTH)?;
    let value = right_in(alloc, value.as_str(), VALUE_WIDTH)?;
    let schedule = next.schedule.as_str();
    format!(in alloc; "    {title}{value}  schedule {schedule}, {source}\n")
}

fn push_change(
    alloc: Global,
    text: &mut String,
    building: &Building,
    change: &ScheduledChange,
) -> Result<(), AllocError>
    ensures { OnOk result (string_bytes text.new ≡ string_bytes text.old ++ next_line building.now change.now) }
{
    let line = next_line(alloc, building, change)?;
    text.push_str(line.as_str())
}

/// Writes a line for each change.
pub fn push_changes(
    alloc: Global,
    text: &mut String,
    building: &Building,
    changes: &[ScheduledChange],
) -> Result<(), AllocError>
    ensures { OnOk result (string_bytes text.new ≡ string_bytes text.old ++ flat_map (next_line building.now) changes.now) }
{
    for change in changes {
        push_change(alloc, text, building, change)?;
    }
    Ok(())
}
