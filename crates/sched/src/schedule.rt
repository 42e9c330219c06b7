//! Schedules.
ghost use Rattle.std.specs.Prelude.{◌≡◌};
ghost use Rattle.sched.specs.Schedule.{is_active, schedule_value, weekday_list};

use crate::calendar::Calendar;
use crate::day_list::DayList;
use crate::exception::{Exception, exceptional_value};
use crate::time::Time;
use dates::{Day, Range, Weekday};
use points::Listing;

/// What a schedule says of each day (12.24), without what it writes to.
#[derive(Drop)]
pub struct Schedule {
    /// The days on which the schedule is active.
    pub effective_period: Range,
    /// A list for each weekday, Monday's first.
    pub weekly: [DayList; 7],
    pub exceptions: Listing<Exception>,
    /// The value where neither an exception nor the weekday's list gives one; `None` is NULL.
    pub default: Option<i64>,
}

impl Schedule {
    /// Whether the day is one of the effective period. Outside it the schedule writes nothing.
    pub fn active(&self, day: Day) -> bool
        ensures { result ≡ is_active self.now day }
    {
        self.effective_period.holds(day)
    }

    /// The value at a time of a day, or NULL: that of the exceptions, else that of the weekday's list,
    /// else the default (this profile's rules). It takes no memory.
    #[tactic(auto, unfolding(crate::specs::Schedule::schedule_value))]
    pub fn value_now(&self, calendars: &[Calendar], day: Day, time: Time) -> Option<i64>
        ensures { result ≡ schedule_value self.now calendars.now day time }
    {
        if let Some(value) = exceptional_value(self.exceptions.as_slice(), calendars, day, time) {
            return Some(value);
        }
        match self.weekday_list(day).value_at(time) {
            Some(value) => Some(value),
            None => self.default,
        }
    }

    pub(crate) fn weekday_list(&self, day: Day) -> &DayList
        ensures { result.now ≡ weekday_list self.now day }
    {
        match day.weekday() {
            Weekday::Monday => &self.weekly[0],
            Weekday::Tuesday => &self.weekly[1],
            Weekday::Wednesday => &self.weekly[2],
            Weekday::Thursday => &self.weekly[3],
            Weekday::Friday => &self.weekly[4],
            Weekday::Saturday => &self.weekly[5],
            Weekday::Sunday => &self.weekly[6],
        }
    }
}
