//! Which list of a schedule speaks.
ghost use Rattle.std.specs.Prelude.{◌≡◌, position};
ghost use Rattle.sched.specs.Exceptions.{exception_now};
ghost use Rattle.sched.specs.Schedule.{weekday_list};
ghost use Rattle.sched.specs.Sources.{exception_source, index_now, source_of, speaks_at};

use crate::calendar::Calendar;
use crate::day_list::DayList;
use crate::exception::{Exception, exception_now};
use crate::schedule::Schedule;
use crate::source::Source;
use crate::time::Time;
use dates::{Day, Weekday};

// The index of the first that speaks at an EventPriority.
fn first_at(
    exceptions: &[Exception],
    calendars: &[Calendar],
    day: Day,
    time: Time,
    event_priority: u8,
) -> Option<usize>
    ensures { result ≡ position (speaks_at calendars.now day time event_priority) exceptions.now }
{
    exceptions.iter().position(|x| x.speaks(calendars, day, time)
        && x.event_priority == event_priority)
}

// The index of the one that is heard.
fn index_now(
    exceptions: &[Exception],
    calendars: &[Calendar],
    day: Day,
    time: Time,
) -> Option<usize>
    ensures { result ≡ index_now calendars.now day time exceptions.now }
{
    let found = exception_now(exceptions, calendars, day, time)?;
    first_at(exceptions, calendars, day, time, found.event_priority)
}

fn exception_source(
    exceptions: &[Exception],
    calendars: &[Calendar],
    day: Day,
    time: Time,
) -> Option<Source>
    ensures { result ≡ exception_source calendars.now day time exceptions.now }
{
    let index = index_now(exceptions, calendars, day, time)?;
    let exception = exceptions.get(index)?;
    Some(Source::Exception {
        index,
        period: exception.period,
    })
}

fn weekday_list(schedule: &Schedule, day: Day) -> &DayList
    ensures { result.now ≡ weekday_list schedule.now day }
{
    match day.weekday() {
        Weekday::Monday => &schedule.weekly[0],
        Weekday::Tuesday => &schedule.weekly[1],
        Weekday::Wednesday => &schedule.weekly[2],
        Weekday::Thursday => &schedule.weekly[3],
        Weekday::Friday => &schedule.weekly[4],
        Weekday::Saturday => &schedule.weekly[5],
        Weekday::Sunday => &schedule.weekly[6],
    }
}

/// What gives the value of a schedule at a time of a day: of the exceptions that are in effect with a value other than
/// NULL that of the lowest EventPriority number, of equal ones the first; else the weekday's list, if its value is not
/// NULL; else the default. Takes no memory.
#[tactic(auto, unfolding(crate::specs::Sources::source_of))]
pub fn source_of(schedule: &Schedule, calendars: &[Calendar], day: Day, time: Time) -> Source
    ensures { result ≡ source_of schedule.now calendars.now day time }
{
    match exception_source(schedule.exceptions.as_slice(), calendars, day, time) {
        Some(source) => source,
        None => {
            if weekday_list(schedule, day).value_at(time).is_some() {
                Source::Weekly { day }
            } else {
                Source::Default
            }
        }
    }
}
