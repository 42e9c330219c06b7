//! The exceptions of a schedule.
ghost use Rattle.std.specs.Prelude.{◌≡◌, option_copied};
ghost use Rattle.sched.specs.Exceptions.{exception_now, exceptional_value, in_effect, in_period, speaks};

use crate::calendar::{CalId, Calendar};
use crate::day_list::DayList;
use crate::time::Time;
use dates::{Day, Entry};

/// The days on which an exception is in effect (12.24).
#[derive(Clone, Copy)]
pub enum Period {
    /// The days of an entry.
    Entry(Entry),
    /// The days of a calendar. One that is not handed in holds on no day.
    Calendar(CalId),
}

impl Period {
    fn holds(&self, calendars: &[Calendar], day: Day) -> bool
        ensures { result ≡ in_period calendars.now day self.now }
    {
        match self {
            Period::Entry(entry) => entry.holds(day),
            Period::Calendar(id) => match calendars.get(id.index) {
                Some(calendar) => calendar.holds(day),
                None => false,
            },
        }
    }
}

/// An exception of a schedule (12.24).
#[derive(Drop)]
pub struct Exception {
    pub period: Period,
    /// The EventPriority, 1 the highest to 16 the lowest. It has nothing to do with the priority at which
    /// the schedule writes.
    pub event_priority: u8,
    pub times: DayList,
}

impl Exception {
    /// Whether the exception is in effect on the day.
    pub fn is_in_effect(&self, calendars: &[Calendar], day: Day) -> bool
        ensures { result ≡ in_effect calendars.now day self.now }
    {
        self.period.holds(calendars, day)
    }

    /// Whether the exception is in effect on the day, and its list has a value at the time.
    pub fn speaks(&self, calendars: &[Calendar], day: Day, time: Time) -> bool
        ensures { result ≡ speaks calendars.now day time self.now }
    {
        self.is_in_effect(calendars, day) && self.times.value_at(time).is_some()
    }
}

/// Of the exceptions that speak, the one of the lowest EventPriority number, and of equal ones the first.
pub fn exception_now<'a>(
    exceptions: &'a [Exception],
    calendars: &[Calendar],
    day: Day,
    time: Time,
) -> Option<&'a Exception>
    ensures { option_copied result ≡ exception_now calendars.now day time exceptions.now }
{
    exceptions
        .iter()
        .filter(|x| x.speaks(calendars, day, time))
        .min_by_key(|x| x.event_priority)
}

/// The value that the exceptions give at a time of a day, if one that is in effect has a value other
/// than NULL: that of the lowest EventPriority number, and of equal ones of the lower index.
pub fn exceptional_value(
    exceptions: &[Exception],
    calendars: &[Calendar],
    day: Day,
    time: Time,
) -> Option<i64>
    ensures { result ≡ exceptional_value calendars.now day time exceptions.now }
{
    exception_now(exceptions, calendars, day, time)?
        .times
        .value_at(time)
}
