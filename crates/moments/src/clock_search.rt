//! The moment at which a clock shows something.
ghost use Rattle.dates.specs.Day.{IsOfYears};
ghost use Rattle.std.specs.Prelude.{◌≡◌, ◌<◌, ℤ, IfSome, None, pos, ◌+ℤ◌, ◌*ℤ◌, true, false};
ghost use Rattle.jiff_core.specs.Calendar.{IsWithin};
ghost use Rattle.jiff_core.specs.Date.{epoch_day};
ghost use Rattle.moments.specs.Meaning.{Means, Shows, ShowsAhead, ShowsFirst};

use crate::moment::Moment;
use dates::Day;
use jiff_core::civil::Date;
use local_times::{LocalTime, ZoneRule, local_time};

/// How many seconds a clock is at most ahead of UTC, or behind it.
const MOST_AHEAD: i64 = 93_599;

/// The hundredths of a second that a day has.
const DAY: i64 = 8_640_000;

/// The moment that is meant, in hundredths of a second since 1970-01-01T00:00:00Z. What the clock of the zone shows
/// twice means the first time. There is none where it never shows it, or not so far ahead of UTC. Takes no memory; what
/// is shown is looked for second by second, which takes some hundredths of one.
pub fn moment_meant(zone: &ZoneRule, moment: Moment) -> Option<i64>
    ensures found { IfSome result (Means zone.now moment) }
    ensures none { result ≡ None → (at : ℤ) → Means zone.now moment at → ⊥ }
{
    match moment {
        Moment::Counted(at) => Some(at),
        Moment::Shown {
            local,
            ahead: Some(ahead),
        } => moment_ahead(zone, &local, i64::from(ahead)),
        Moment::Shown { local, ahead: None } => first_moment(zone, &local),
    }
}

/// The first moment at which the clock shows it. Whole seconds ahead of UTC are tried, the most first.
fn first_moment(zone: &ZoneRule, local: &LocalTime) -> Option<i64>
    ensures found { IfSome result (ShowsFirst zone.now local.now) }
    ensures none { result ≡ None → (at : ℤ) → Shows zone.now local.now at → ⊥ }
{
    let clock = clock_of(local);
    for step in 0..2 * MOST_AHEAD + 1 {
        let at = clock - (MOST_AHEAD - step) * 100;
        if shows(zone, local, at) {
            return Some(at);
        }
    }
    None
}

/// The moment at which the clock shows it, and is so many hundredths of a second ahead of UTC.
fn moment_ahead(zone: &ZoneRule, local: &LocalTime, ahead: i64) -> Option<i64>
    requires { IsWithin 2_147_483_648 ahead }
    ensures found { IfSome result (ShowsAhead zone.now local.now ahead) }
    ensures none { result ≡ None → (at : ℤ) → ShowsAhead zone.now local.now ahead at → ⊥ }
{
    let at = clock_of(local) - ahead;
    if shows(zone, local, at) {
        Some(at)
    } else {
        None
    }
}

/// Whether the clock shows it at a moment.
fn shows(zone: &ZoneRule, local: &LocalTime, at: i64) -> bool
    ensures shows { result ≡ true → Shows zone.now local.now at }
    ensures hides { result ≡ false → Shows zone.now local.now at → ⊥ }
{
    let clock = clock_of(local);
    match local_time(zone, at) {
        Some(shown) => clock_of(&shown) == clock,
        None => false,
    }
}

/// The hundredths of a second from 1970-01-01T00:00:00 to it, as a clock counts them.
fn clock_of(local: &LocalTime) -> i64
    ensures value { result ≡ epoch_day local.now.day *ℤ pos 8_640_000 +ℤ pos local.now.time }
    ensures bound { IsWithin 40_000_000_000_000 result }
    ensures years { IsOfYears local.now.day }
    ensures within { local.now.time < 8_640_000 }
{
    day_number(local.day) * DAY + i64::from(local.time.hundredths())
}

/// The number of a day, where 1970-01-01 is 0.
fn day_number(day: Day) -> i64
    ensures value { result ≡ epoch_day day }
    ensures bound { IsWithin 4_400_000 result }
    ensures years { IsOfYears day }
{
    let date = Date::constrain(day.year() as i16, day.month(), day.day_of_month());
    i64::from(date.to_unix_epoch_day())
}
