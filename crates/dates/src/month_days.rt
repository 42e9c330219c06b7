//! The days of a month that a pattern names: one, the last, the odd, the even or any.
ghost use Rattle.std.specs.Prelude.{◌≡◌, ◌↔◌, IsSome, IfSome};
ghost use Rattle.std.specs.Int.{IsInRange};
ghost use Rattle.dates.specs.Masks.{day_mask, days_left_mask};
ghost use Rattle.dates.specs.MonthDays.{AreMonthDays};

use crate::masks::{ANY_DAY, ANY_DAYS_LEFT, has_both};
use crate::{Day, notation};
use std::fmt;
use std::marker::Model;

/// A day of a month, from 1 to 31.
#[derive(Clone, Copy)]
pub struct MonthDay {
    number: u8,
}

impl Model for MonthDay {
    ghost use Rattle.std.specs.Prelude.{ℕ};
    ghost use Rattle.std.specs.Int.{IsInRange};

    ghost Value = { ℕ };

    ghost view = { λ d. d.number };

    ghost invariant = { λ d. IsInRange 1 31 d.number };

    ghost inverse = { λ n. record { number = n } };
}

impl MonthDay {
    /// The day of the month with this number, where it is 1 to 31.
    pub fn new(number: u8) -> Option<MonthDay>
        ensures valid { IsSome result ↔ IsInRange 1 31 number }
        ensures value { IfSome result (λ day. day ≡ number) }
    {
        if 1 <= number && number <= 31 {
            Some(MonthDay { number })
        } else {
            None
        }
    }

    /// The number of the day.
    pub fn number(self) -> u8
        ensures value { result ≡ self }
        ensures range { IsInRange 1 31 result }
    {
        self.number
    }
}

/// The days of the month that a date pattern names. The standard writes the last day as 32, the
/// odd days as 33 and the even ones as 34.
#[derive(Clone, Copy)]
pub enum MonthDays {
    Any,
    Last,
    Odd,
    Even,
    One(MonthDay),
}

impl MonthDays {
    ghost use Rattle.dates.specs.MonthDays.{month_days_at, one_month_day};

    /// Reads two digits, `last`, `odd`, `even` or `*`.
    #[tactic(auto, unfolding(crate::specs::MonthDays::month_days_at))]
    pub(crate) fn read(text: &str) -> Option<MonthDays>
        ensures { result ≡ month_days_at text.now }
    {
        match text {
            "*" => Some(MonthDays::Any),
            "last" => Some(MonthDays::Last),
            "odd" => Some(MonthDays::Odd),
            "even" => Some(MonthDays::Even),
            _ => Some(MonthDays::One(MonthDay::new(notation::two_digits(text)?)?)),
        }
    }

    /// The number of the day of the month, where the field names one alone.
    pub(crate) fn number(self) -> Option<u8>
        ensures value { result ≡ one_month_day self }
        ensures range { AreMonthDays self }
    {
        match self {
            MonthDays::One(day) => Some(day.number()),
            _ => None,
        }
    }
}

const ODD_DAYS: u32 = 0xaaaa_aaaa;

const EVEN_DAYS: u32 = 0x5555_5554;
/// No day left.
const LAST_DAY: u32 = 1;

/// Days of a month as two masks, both of which must hold: with a bit for each of the days 1 to 31, and with one
/// for each number of days left in the month, 0 to 30. Contracts see it as the days that it names.
#[derive(Clone, Copy, Debug, PartialEq, Eq)]
pub(crate) struct DayMask {
    days: u32,
    days_left: u32,
}

impl Model for DayMask {
    ghost use Rattle.dates.specs.declared.month_days.MonthDays.{MonthDays};
    ghost use Rattle.dates.specs.Masks.{day_mask, days_left_mask, month_days_of, IsDayMask};

    ghost Value = { MonthDays };

    ghost view = { λ m. month_days_of m.days m.days_left };

    ghost invariant = { λ m. IsDayMask m.days m.days_left };

    ghost inverse = { λ days. record { days = day_mask days; days_left = days_left_mask days } };

    ghost inverse_ok = { λ m held i. record { days = held.0 i; days_left = held.1 i } };
}

impl DayMask {
    ghost use Rattle.dates.specs.MonthDays.{in_month_days};

    /// The masks of the days that are named.
    pub(crate) fn of(named: MonthDays) -> DayMask
        ensures { result ≡ named }
    {
        let days = day_bits(&named);
        let days_left = days_left_bits(&named);
        DayMask { days, days_left }
    }

    /// The days, as they are named.
    pub(crate) fn named(self) -> MonthDays
        ensures { result ≡ self }
    {
        if self.days_left == LAST_DAY {
            return MonthDays::Last;
        }
        match self.days {
            ANY_DAY => MonthDays::Any,
            ODD_DAYS => MonthDays::Odd,
            EVEN_DAYS => MonthDays::Even,
            one => MonthDays::One(MonthDay {
                number: one.trailing_zeros() as u8,
            }),
        }
    }

    /// Whether the day is one of these in its month.
    pub(crate) fn holds(self, day: Day) -> bool
        ensures { result ≡ in_month_days self day }
    {
        has_both(self.days, self.days_left, day)
    }
}

fn day_bits(named: &MonthDays) -> u32
    ensures value { result ≡ day_mask named.now }
    ensures range { AreMonthDays named.now }
{
    match named {
        MonthDays::Any | MonthDays::Last => ANY_DAY,
        MonthDays::Odd => ODD_DAYS,
        MonthDays::Even => EVEN_DAYS,
        MonthDays::One(day) => 1 << day.number(),
    }
}

fn days_left_bits(named: &MonthDays) -> u32
    ensures { result ≡ days_left_mask named.now }
{
    match named {
        MonthDays::Last => LAST_DAY,
        _ => ANY_DAYS_LEFT,
    }
}

impl fmt::Display for MonthDay {
    ghost use Rattle.std.specs.Prelude.{Some};
    ghost use Rattle.dates.specs.Notation.{two_digit_text};

    ghost output = { λ x. Some (two_digit_text x) };

    fn fmt<W: fmt::Write>(&self, f: &mut fmt::Formatter<W>) -> fmt::Result {
        write!(f, "{:02}", self.number())
    }
}

impl fmt::Display for MonthDays {
    ghost use Rattle.std.specs.Prelude.{Some};
    ghost use Rattle.dates.specs.MonthDays.{month_days_text};

    ghost output = { λ x. Some (month_days_text x) };

    fn fmt<W: fmt::Write>(&self, f: &mut fmt::Formatter<W>) -> fmt::Result {
        match self {
            MonthDays::Any => f.write_str("*"),
            MonthDays::Last => f.write_str("last"),
            MonthDays::Odd => f.write_str("odd"),
            MonthDays::Even => f.write_str("even"),
            MonthDays::One(day) => day.fmt(f),
        }
    }
}
