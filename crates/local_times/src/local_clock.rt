//! The day and the time of day at a moment.

ghost use Rattle.std.specs.Prelude.{◌≡◌, ◌<◌, ◌/◌, IfSome};
ghost use Rattle.jiff_core.specs.Date.{epoch_day};
ghost use Rattle.jiff_core.specs.Time.{time_nanos};
ghost use Rattle.local_times.specs.LocalTimes.{clock_at, IsShown, local_at, local_on};

use crate::zone_rule::ZoneRule;
use dates::Day;
use jiff::Timestamp;
use jiff_core::civil;
use sched::Time;

/// The nanoseconds of a hundredth of a second.
const NANOSECONDS: i128 = 10_000_000;

/// The first local year of a moment (this profile's choice). The last is that of a `Day`, 2154.
const FIRST_YEAR: i16 = 1970;

/// What a clock shows: the day, and the time of that day.
#[derive(Clone, Copy)]
pub struct LocalTime {
    pub day: Day,
    pub time: Time,
}

/// The local time at a moment, a number of hundredths of a second since 1970-01-01T00:00:00Z. There is none
/// before that, and none outside the local years 1970 to 2154. Takes no memory.
pub fn local_time(zone: &ZoneRule, moment: i64) -> Option<LocalTime>
    ensures value { result ≡ local_at zone.now moment }
    ensures shows { IfSome result (IsShown (clock_at zone.now moment)) }
{
    if moment < 0 {
        return None;
    }
    let instant = Timestamp::from_nanosecond(moment as i128 * NANOSECONDS).ok()?;
    let shown = zone.time_zone().to_datetime(instant).to_plain();
    shown_at(shown.date, shown.time)
}

/// A date with a time of day, where it is of such a year.
fn shown_at(date: civil::Date, time: civil::Time) -> Option<LocalTime>
    ensures value { result ≡ local_on (epoch_day date) (time_nanos time / 10_000_000) }
    ensures parts { IfSome result (λ local. (epoch_day local.day ≡ epoch_day date)
        × (local.time ≡ time_nanos time / 10_000_000)) }
{
    if date.year < FIRST_YEAR {
        return None;
    }
    let day = Day::new(date.year as i32, date.month, date.day)?;
    let time = Time::new(hundredths_of(time))?;
    Some(LocalTime { day, time })
}

/// The hundredths of a second since midnight.
fn hundredths_of(time: civil::Time) -> u32
    ensures value { result ≡ time_nanos time / 10_000_000 }
    ensures within { result < 8_640_000 }
{
    let minutes = time.hour as u32 * 60 + time.minute as u32;
    let seconds = minutes * 60 + time.second as u32;
    seconds * 100 + time.subsec_nanosecond / 10_000_000
}
