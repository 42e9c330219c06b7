//! The next change of a schedule's value on a day.
ghost use Rattle.std.specs.Prelude.{◌≡◌, IfOk};
ghost use Rattle.sched.specs.NextChange.{first_after, next_change};

use crate::calendar::Calendar;
use crate::day_list::TimeValue;
use crate::schedule::Schedule;
use crate::source::Source;
use crate::sources::source_of;
use crate::time::Time;
use dates::Day;
use std::alloc::{AllocError, Global};

/// A later time of a day, from which on a schedule has another value.
#[derive(Clone, Copy)]
pub struct NextChange {
    pub time: Time,
    /// The value from then on; `None` is NULL.
    pub value: Option<i64>,
    /// What gives it then.
    pub source: Source,
}

// The first segment that begins after a time.
fn first_after(segments: &[TimeValue], time: Time) -> Option<TimeValue>
    ensures { result ≡ first_after segments.now time }
{
    segments.iter().find(|segment| time < segment.time).copied()
}

/// The first time of the day after `time` at which the schedule's value is another than at `time`, with the value and
/// what gives it then; none where the value stands to the end of the day. Whether the schedule is active does not
/// matter here.
#[tactic(auto, unfolding(crate::specs::NextChange::next_change))]
pub fn next_change(
    alloc: Global,
    schedule: &Schedule,
    calendars: &[Calendar],
    day: Day,
    time: Time,
) -> Result<Option<NextChange>, AllocError>
    ensures { IfOk result (λ change. change ≡ next_change schedule.now calendars.now day time) }
{
    let segments = schedule.segments(alloc, calendars, day)?;
    let Some(segment) = first_after(segments.as_slice(), time) else {
        return Ok(None);
    };
    Ok(Some(NextChange {
        time: segment.time,
        value: segment.value,
        source: source_of(schedule, calendars, day, segment.time),
    }))
}
