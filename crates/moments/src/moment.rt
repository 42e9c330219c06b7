//! What a text says of a moment.
ghost use Rattle.std.specs.Prelude.{◌≡◌, ℤ, IfSome, None, Option, option_map, pos};
ghost use Rattle.building.specs.TimeValue.{time_at};
ghost use Rattle.local_times.specs.declared.local_clock.LocalTime.{LocalTime as a_local_time};
ghost use Rattle.moments.specs.Moment.{SpellsLocal, SpellsMoment, clock_in, cut_at};
ghost use Rattle.moments.specs.declared.moment.Moment.{Moment as a_moment};

use building::read_time;
use dates::Day;
use local_times::LocalTime;
use sched::Time;

/// A moment as a user names it.
#[derive(Clone, Copy)]
pub enum Moment {
    /// So many hundredths of a second since 1970-01-01T00:00:00Z.
    Counted(i64),
    /// When the building's clock shows this, and, if that is said, is so many hundredths of a second ahead of UTC.
    Shown {
        local: LocalTime,
        ahead: Option<i32>,
    },
}

impl Moment {
    /// Reads hundredths of a second since 1970, or what the building's clock shows: `2026-11-29`, its midnight,
    /// `2026-11-29T14:00`, with seconds and hundredths as `14:00:30.25`, and with how far the clock is ahead of UTC as
    /// `+01:00`, `-03:30` or `Z`. Takes no memory.
    pub fn read(text: &str) -> Option<Moment>
        ensures spells { IfSome result (SpellsMoment text.now) }
        ensures none { result ≡ None → (moment : a_moment) → SpellsMoment text.now moment → ⊥ }
    {
        match text.parse::<i64>() {
            Ok(counted) => Some(Moment::Counted(counted)),
            Err(_) => {
                let (local, ahead) = shown_in(text)?;
                Some(Moment::Shown { local, ahead })
            }
        }
    }
}

/// What the clock shows, by a day alone or by a day and a time, and how far ahead of UTC it is.
fn shown_in(text: &str) -> Option<(LocalTime, Option<i32>)>
    ensures spells { IfSome result (λ shown. SpellsLocal text.now (cut_at 84 text.now) shown.0 shown.1) }
    ensures none { result ≡ None → (local : a_local_time) (ahead : Option ℤ)
        → SpellsLocal text.now (cut_at 84 text.now) local ahead → ⊥ }
{
    match text.split_once('T') {
        Some((day, rest)) => {
            let (time, ahead) = clock_in(rest)?;
            let day = Day::read(day)?;
            Some((LocalTime { day, time }, ahead))
        }
        None => {
            let day = Day::read(text)?;
            let time = Time::MIDNIGHT;
            Some((LocalTime { day, time }, None))
        }
    }
}

/// A time of day, and how far ahead of UTC the clock is then, if that is said.
fn clock_in(text: &str) -> Option<(Time, Option<i32>)>
    ensures { result ≡ clock_in text.now }
{
    if let Some((time, ahead)) = text.split_once('+') {
        return Some((read_time(time)?, Some(hundredths_in(ahead)?)));
    }
    if let Some((time, ahead)) = text.split_once('-') {
        return Some((read_time(time)?, Some(-hundredths_in(ahead)?)));
    }
    match text.split_once('Z') {
        Some((time, "")) => Some((read_time(time)?, Some(0))),
        Some(_) => None,
        None => Some((read_time(text)?, None)),
    }
}

/// The hundredths of a second that `HH:MM` writes.
fn hundredths_in(text: &str) -> Option<i32>
    ensures { result ≡ option_map pos (time_at text.now) }
{
    Some(read_time(text)?.hundredths() as i32)
}
