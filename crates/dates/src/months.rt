//! The months that a pattern or a week-and-day names: one, the odd, the even or any.
ghost use Rattle.std.specs.Prelude.{◌≡◌, ◌↔◌, IsSome, IfSome};
ghost use Rattle.std.specs.Int.{IsInRange};
ghost use Rattle.dates.specs.Masks.{month_mask};
ghost use Rattle.dates.specs.Months.{AreMonths};

use crate::masks::has_bit;
use crate::{Day, notation};
use std::fmt;
use std::marker::Model;

/// A month from 1, January, to 12, December.
#[derive(Clone, Copy)]
pub struct Month {
    number: u8,
}

impl Model for Month {
    ghost use Rattle.std.specs.Prelude.{ℕ};
    ghost use Rattle.std.specs.Int.{IsInRange};

    ghost Value = { ℕ };

    ghost view = { λ m. m.number };

    ghost invariant = { λ m. IsInRange 1 12 m.number };

    ghost inverse = { λ n. record { number = n } };
}

impl Month {
    /// The month with this number, where it is 1 to 12.
    pub fn new(number: u8) -> Option<Month>
        ensures valid { IsSome result ↔ IsInRange 1 12 number }
        ensures value { IfSome result (λ month. month ≡ number) }
    {
        if 1 <= number && number <= 12 {
            Some(Month { number })
        } else {
            None
        }
    }

    /// The month's number.
    pub fn number(self) -> u8
        ensures value { result ≡ self }
        ensures range { IsInRange 1 12 result }
    {
        self.number
    }
}

/// The months that a date pattern or a week-and-day names. The standard writes the odd months as
/// 13 and the even ones as 14.
#[derive(Clone, Copy)]
pub enum Months {
    Any,
    Odd,
    Even,
    One(Month),
}

impl Months {
    ghost use Rattle.dates.specs.Months.{months_at, one_month};

    /// Reads two digits, `odd`, `even` or `*`.
    #[tactic(auto, unfolding(crate::specs::Months::months_at))]
    pub(crate) fn read(text: &str) -> Option<Months>
        ensures { result ≡ months_at text.now }
    {
        match text {
            "*" => Some(Months::Any),
            "odd" => Some(Months::Odd),
            "even" => Some(Months::Even),
            _ => Some(Months::One(Month::new(notation::two_digits(text)?)?)),
        }
    }

    /// The number of the month, where the field names one alone.
    pub(crate) fn number(self) -> Option<u8>
        ensures value { result ≡ one_month self }
        ensures range { AreMonths self }
    {
        match self {
            Months::One(month) => Some(month.number()),
            _ => None,
        }
    }
}

/// The bits 1 to 12.
const ANY_MONTH: u32 = 0x1ffe;

const ODD_MONTHS: u32 = 0x0aaa;

const EVEN_MONTHS: u32 = 0x1554;

/// Months as a mask, with a bit for each of the months 1 to 12. Contracts see it as the months that it names.
#[derive(Clone, Copy, Debug, PartialEq, Eq)]
pub(crate) struct MonthMask {
    bits: u32,
}

impl Model for MonthMask {
    ghost use Rattle.dates.specs.declared.months.Months.{Months};
    ghost use Rattle.dates.specs.Masks.{month_mask, months_of, IsMonthMask};

    ghost Value = { Months };

    ghost view = { λ m. months_of m.bits };

    ghost invariant = { λ m. IsMonthMask m.bits };

    ghost inverse = { λ months. record { bits = month_mask months } };

    ghost inverse_ok = { λ m held i. record { bits = held.0 i } };
}

impl MonthMask {
    ghost use Rattle.dates.specs.Months.{in_months};

    /// The mask of the months that are named.
    pub(crate) fn of(months: Months) -> MonthMask
        ensures { result ≡ months }
    {
        let bits = month_bits(months);
        MonthMask { bits }
    }

    /// The months, as they are named.
    pub(crate) fn named(self) -> Months
        ensures { result ≡ self }
    {
        match self.bits {
            ANY_MONTH => Months::Any,
            ODD_MONTHS => Months::Odd,
            EVEN_MONTHS => Months::Even,
            one => Months::One(Month {
                number: one.trailing_zeros() as u8,
            }),
        }
    }

    /// Whether the day's month is one of these.
    pub(crate) fn holds(self, day: Day) -> bool
        ensures { result ≡ in_months self day }
    {
        has_bit(self.bits, day.month())
    }
}

fn month_bits(months: Months) -> u32
    ensures value { result ≡ month_mask months }
    ensures range { AreMonths months }
{
    match months {
        Months::Any => ANY_MONTH,
        Months::Odd => ODD_MONTHS,
        Months::Even => EVEN_MONTHS,
        Months::One(month) => 1 << month.number(),
    }
}

impl fmt::Display for Month {
    ghost use Rattle.std.specs.Prelude.{Some};
    ghost use Rattle.dates.specs.Notation.{two_digit_text};

    ghost output = { λ x. Some (two_digit_text x) };

    fn fmt<W: fmt::Write>(&self, f: &mut fmt::Formatter<W>) -> fmt::Result {
        write!(f, "{:02}", self.number())
    }
}

impl fmt::Display for Months {
    ghost use Rattle.std.specs.Prelude.{Some};
    ghost use Rattle.dates.specs.Months.{months_text};

    ghost output = { λ x. Some (months_text x) };

    fn fmt<W: fmt::Write>(&self, f: &mut fmt::Formatter<W>) -> fmt::Result {
        match self {
            Months::Any => f.write_str("*"),
            Months::Odd => f.write_str("odd"),
            Months::Even => f.write_str("even"),
            Months::One(month) => month.fmt(f),
        }
    }
}
