//! The years that a date names: one from 1900 to 2154, or any.
ghost use Rattle.std.specs.Prelude.{◌≡◌, ℕ, ◌↔◌, IsSome, IfSome};
ghost use Rattle.std.specs.Int.{IsInRange};

use crate::{Day, notation};
use std::fmt;
use std::marker::Model;

/// A year from 1900 to 2154.
#[derive(Clone, Copy, Debug, PartialEq, Eq)]
pub struct Year {
    number: u16,
}

impl Model for Year {
    ghost Value = { ℕ };

    ghost view = { λ y. y.number };

    ghost invariant = { λ y. IsInRange 1900 2154 y.number };

    ghost inverse = { λ n. record { number = n } };
}

impl Year {
    ghost use Rattle.dates.specs.Year.{in_years, years_at};

    /// The year with this number, where it is 1900 to 2154.
    pub fn new(number: u16) -> Option<Year>
        ensures valid { IsSome result ↔ IsInRange 1900 2154 number }
        ensures value { IfSome result (λ year. year ≡ number) }
    {
        if 1900 <= number && number <= 2154 {
            Some(Year { number })
        } else {
            None
        }
    }

    /// The year's number.
    pub fn number(self) -> u16
        ensures value { result ≡ self }
        ensures range { IsInRange 1900 2154 result }
    {
        self.number
    }

    /// Reads four digits, or `*` for any year.
    #[tactic(auto, unfolding(crate::specs::Year::years_at))]
    pub(crate) fn read_or_any(text: &str) -> Option<Option<Year>>
        ensures { result ≡ years_at text.now }
    {
        match text {
            "*" => Some(None),
            _ => Some(Some(Year::new(notation::four_digits(text)?)?)),
        }
    }

    /// Whether the day's year is the one named, or any is.
    pub(crate) fn holds_or_any(years: Option<Year>, day: Day) -> bool
        ensures { result ≡ in_years years day }
    {
        match years {
            Some(year) => day.year() == year.number(),
            None => true,
        }
    }
}

impl fmt::Display for Year {
    ghost use Rattle.std.specs.Prelude.{Some};
    ghost use Rattle.dates.specs.Notation.{four_digit_text};

    ghost output = { λ x. Some (four_digit_text x) };

    fn fmt<W: fmt::Write>(&self, f: &mut fmt::Formatter<W>) -> fmt::Result {
        write!(f, "{}", self.number())
    }
}

/// A year or any, as it is written.
#[derive(Clone, Copy)]
pub(crate) struct YearOrAny(pub(crate) Option<Year>);

impl fmt::Display for YearOrAny {
    ghost use Rattle.std.specs.Prelude.{Some};
    ghost use Rattle.dates.specs.Year.{years_text};

    ghost output = { λ x. Some (years_text x.0) };

    fn fmt<W: fmt::Write>(&self, f: &mut fmt::Formatter<W>) -> fmt::Result {
        match self.0 {
            Some(year) => year.fmt(f),
            None => f.write_str("*"),
        }
    }
}
