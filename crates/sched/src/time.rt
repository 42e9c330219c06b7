//! A time of day.
ghost use Rattle.std.specs.Prelude.{◌≡◌, ◌-◌, ◌<◌, ◌↔◌, IsSome, IfSome, ◌%◌, ◌/◌};

use std::fmt;
use std::marker::Model;

/// How many hundredths of a second a day has.
pub const HUNDREDTHS_A_DAY: u32 = 8_640_000;

/// A time of day, fully specified: hundredths of a second since midnight, 0 to 8,639,999. Contracts see
/// it as that number.
#[derive(Clone, Copy, PartialEq, Eq, PartialOrd, Ord)]
pub struct Time {
    hundredths: u32,
}

impl Model for Time {
    ghost use Rattle.std.specs.Prelude.{ℕ, ◌<◌};

    ghost Value = { ℕ };

    ghost view = { λ time. time.hundredths };

    ghost invariant = { λ time. time.hundredths < 8_640_000 };

    ghost inverse = { λ n. record { hundredths = n } };
}

impl Time {
    /// 00:00:00.00.
    pub const MIDNIGHT: Time = Time { hundredths: 0 };

    /// 23:59:59.99.
    pub const LAST: Time = Time {
        hundredths: 8_639_999,
    };

    /// The time so many hundredths of a second after midnight, if it is on the same day.
    pub fn new(hundredths: u32) -> Option<Time>
        ensures exists { IsSome result ↔ (hundredths < 8_640_000) }
        ensures value { IfSome result (λ time. time ≡ hundredths) }
    {
        if hundredths < HUNDREDTHS_A_DAY {
            Some(Time { hundredths })
        } else {
            None
        }
    }

    /// The time a hundredth of a second before; of midnight, midnight itself.
    pub(crate) fn hundredth_before(self) -> Time
        ensures { result ≡ self - 1 }
    {
        Time {
            hundredths: self.hundredths.saturating_sub(1),
        }
    }

    /// The hundredths of a second since midnight.
    pub fn hundredths(self) -> u32
        ensures value { result ≡ self }
        ensures within { result < 8_640_000 }
    {
        self.hundredths
    }
}

/// `HH:MM:SS.hh`
impl fmt::Display for Time {
    ghost use Rattle.std.specs.Prelude.{Some};
    ghost use Rattle.sched.specs.TimeText.{time_text};

    ghost output = { λ time. Some (time_text time) };

    fn fmt<W: fmt::Write>(&self, f: &mut fmt::Formatter<W>) -> fmt::Result {
        let hundredths = self.hundredths();
        let (hour, minute) = (hundredths / 360_000, hundredths / 6_000 % 60);
        let (second, rest) = (hundredths / 100 % 60, hundredths % 100);
        write!(f, "{hour:02}:{minute:02}:{second:02}.{rest:02}")
    }
}
