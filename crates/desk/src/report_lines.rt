//! The lines of a report.
ghost use Rattle.std.specs.Prelude.{◌≡◌, ◌++◌, IfOk, OnOk, string_bytes};
ghost use Rattle.std.specs.List.{flat_map};
ghost use Rattle.points.specs.PointLine.{right_in};
ghost use Rattle.desk.specs.ReportLines.{activity, day_line, schedule_lines, segment_line, value_text};

use building::NamedSchedule;
use dates::{Day, weekday_name};
use itoa::Buffer;
use points::push_right;
use sched::{Calendar, TimeValue};
use std::alloc::{AllocError, Global};
use std::fmt::Write;

/// The places of a value.
const VALUE_WIDTH: usize = 12;

/// The line of a day.
#[tactic(auto, using(crate::proofs::WeekdayLemmas::named_weekday))]
pub fn day_line(alloc: Global, day: Day) -> Result<String, AllocError>
    ensures { IfOk result (λ line. string_bytes line ≡ day_line day) }
{
    format!(in alloc; "DAY {day} {}\n", weekday_name(day.weekday()))
}

fn activity(is_active: bool) -> &'static str
    ensures { result.now ≡ activity is_active }
{
    if is_active { "active" } else { "quiet" }
}

// Writes a value at the right of its places.
fn push_value(text: &mut String, value: Option<i64>) -> Result<(), AllocError>
    ensures { OnOk result (string_bytes text.new ≡ string_bytes text.old ++ right_in 12 (value_text value)) }
{
    match value {
        Some(value) => push_right(text, Buffer::new().format(value), VALUE_WIDTH),
        None => push_right(text, "NULL", VALUE_WIDTH),
    }
}

fn push_segment(text: &mut String, segment: &TimeValue) -> Result<(), AllocError>
    ensures { OnOk result (string_bytes text.new ≡ string_bytes text.old ++ segment_line segment.now) }
{
    write!(text, "{}", segment.time)?;
    text.push_str(" ")?;
    push_value(text, segment.value)?;
    text.push_str("\n")?;
    Ok(())
}

fn push_segments(text: &mut String, segments: &[TimeValue]) -> Result<(), AllocError>
    ensures { OnOk result (string_bytes text.new ≡ string_bytes text.old ++ flat_map segment_line segments.now) }
{
    for segment in segments {
        push_segment(text, segment)?;
    }
    Ok(())
}

/// Writes the lines of a schedule on a day.
#[tactic(auto, unfolding(crate::specs::ReportLines::schedule_lines))]
pub fn push_schedule(
    alloc: Global,
    text: &mut String,
    schedule: &NamedSchedule,
    calendars: &[Calendar],
    day: Day,
) -> Result<(), AllocError>
    ensures { OnOk result (string_bytes text.new ≡ string_bytes text.old ++ schedule_lines calendars.now day schedule.now) }
{
    let segments = schedule.schedule.segments(alloc, calendars, day)?;
    text.push_str("SCHEDULE ")?;
    text.push_str(schedule.name.as_str())?;
    text.push_str(" ")?;
    text.push_str(activity(schedule.schedule.active(day)))?;
    text.push_str("\n")?;
    push_segments(text, segments.as_slice())
}
