//! The segments of a schedule's day.
ghost use Rattle.std.specs.Prelude.{◌≡◌, ◌++◌, not, Some, IfOk, OnOk};
ghost use Rattle.std.specs.List.{flat_map};
ghost use Rattle.std.specs.Option.{option_eq};
ghost use Rattle.sched.specs.DayList.{times_of};
ghost use Rattle.sched.specs.Named.{exception_times, named_times};
ghost use Rattle.sched.specs.Schedule.{schedule_value};
ghost use Rattle.sched.specs.Segments.{last_value, segments_of, value_eq, with_change};

use crate::calendar::Calendar;
use crate::day_list::TimeValue;
use crate::exception::Exception;
use crate::schedule::Schedule;
use crate::time::{HUNDREDTHS_A_DAY, Time};
use dates::Day;
use std::alloc::{AllocError, Global};

fn push_times(times: &mut Vec<Time>, list: &[TimeValue]) -> Result<(), AllocError>
    ensures { OnOk result (times.new.items ≡ times.old.items ++ times_of list.now) }
{
    for time_value in list {
        times.push(time_value.time)?;
    }
    Ok(())
}

fn push_exception(
    times: &mut Vec<Time>,
    exception: &Exception,
    calendars: &[Calendar],
    day: Day,
) -> Result<(), AllocError>
    ensures { OnOk result (times.new.items ≡ times.old.items ++ exception_times calendars.now day exception.now) }
{
    if exception.is_in_effect(calendars, day) {
        push_times(times, exception.times.as_slice())?;
    }
    Ok(())
}

fn push_exceptions(
    times: &mut Vec<Time>,
    exceptions: &[Exception],
    calendars: &[Calendar],
    day: Day,
) -> Result<(), AllocError>
    ensures { OnOk result (times.new.items ≡ times.old.items ++ flat_map (exception_times calendars.now day) exceptions.now) }
{
    for exception in exceptions {
        push_exception(times, exception, calendars, day)?;
    }
    Ok(())
}

// Whether the last segment has another value, or there is none.
fn differs(segments: &[TimeValue], value: Option<i64>) -> bool
    ensures { result ≡ not (option_eq value_eq (last_value segments.now) (Some value)) }
{
    match segments.last() {
        Some(last) => last.value != value,
        None => true,
    }
}

fn push_change(segments: &mut Vec<TimeValue>, next: TimeValue) -> Result<(), AllocError>
    ensures { OnOk result (segments.new.items ≡ with_change segments.old.items next) }
{
    if differs(segments.as_slice(), next.value) {
        segments.push(next)?;
    }
    Ok(())
}

impl Schedule {
    // Midnight, and the times at which the value of the day may change.
    fn named_times(
        &self,
        alloc: Global,
        calendars: &[Calendar],
        day: Day,
    ) -> Result<Vec<Time>, AllocError>
        ensures { IfOk result (λ times. times.items ≡ named_times self.now calendars.now day) }
    {
        let mut times = Vec::new(alloc);
        times.push(Time::MIDNIGHT)?;
        push_times(&mut times, self.weekday_list(day).as_slice())?;
        push_exceptions(&mut times, self.exceptions.as_slice(), calendars, day)?;
        Ok(times)
    }

    /// The segments of a day: 00:00 and each time at which the value differs from that a hundredth of a
    /// second earlier, each with the value from there on, in rising order. Whether the schedule is active
    /// does not matter here. It sorts the times that the day's lists name, and takes the value once at each.
    pub fn segments(
        &self,
        alloc: Global,
        calendars: &[Calendar],
        day: Day,
    ) -> Result<Vec<TimeValue>, AllocError>
        ensures { IfOk result (λ segments. segments.items
            ≡ segments_of (λ c. schedule_value self.now calendars.now day c)) }
    {
        let mut times = self.named_times(alloc, calendars, day)?;
        times.sort()?;
        let mut segments = Vec::new(alloc);
        for time in &times {
            prove!(time.hundredths() < HUNDREDTHS_A_DAY);
            let value = self.value_now(calendars, day, *time);
            push_change(&mut segments, TimeValue { time: *time, value })?;
        }
        Ok(segments)
    }
}
