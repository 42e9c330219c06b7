//! Weekdays, as the notation spells them and as masks.
ghost use Rattle.std.specs.Prelude.{◌≡◌};
ghost use Rattle.dates.specs.Masks.{weekday_mask};
ghost use Rattle.dates.specs.Weekday.{in_weekdays, weekday_at, weekdays_at, weekday_text};

use crate::masks::has_bit;
use crate::{Day, Weekday};
use std::fmt;
use std::marker::Model;

/// The three letters of a weekday, in lower case.
pub fn weekday_name(weekday: Weekday) -> &'static str
    ensures { result.now ≡ weekday_text weekday }
{
    match weekday {
        Weekday::Monday => "mon",
        Weekday::Tuesday => "tue",
        Weekday::Wednesday => "wed",
        Weekday::Thursday => "thu",
        Weekday::Friday => "fri",
        Weekday::Saturday => "sat",
        Weekday::Sunday => "sun",
    }
}

/// Reads the three letters of a weekday.
#[tactic(auto, unfolding(crate::specs::Weekday::weekday_at))]
pub(crate) fn read_weekday(text: &str) -> Option<Weekday>
    ensures { result ≡ weekday_at text.now }
{
    match text {
        "mon" => Some(Weekday::Monday),
        "tue" => Some(Weekday::Tuesday),
        "wed" => Some(Weekday::Wednesday),
        "thu" => Some(Weekday::Thursday),
        "fri" => Some(Weekday::Friday),
        "sat" => Some(Weekday::Saturday),
        "sun" => Some(Weekday::Sunday),
        _ => None,
    }
}

/// Reads the three letters of a weekday, or `*` for any.
#[tactic(auto, unfolding(crate::specs::Weekday::weekdays_at))]
pub(crate) fn read_weekday_or_any(text: &str) -> Option<Option<Weekday>>
    ensures { result ≡ weekdays_at text.now }
{
    match text {
        "*" => Some(None),
        _ => Some(Some(read_weekday(text)?)),
    }
}

/// The bits 0 to 6.
const ANY_WEEKDAY: u32 = 0x7f;

/// Weekdays as a mask, with a bit for each, Monday's the lowest. Contracts see it as the weekday that it names, or any.
#[derive(Clone, Copy, Debug, PartialEq, Eq)]
pub(crate) struct WeekdayMask {
    bits: u32,
}

impl Model for WeekdayMask {
    ghost use Rattle.std.specs.Prelude.{Option};
    ghost use Rattle.jiff_core.specs.declared.civil.weekday.Weekday.{Weekday};
    ghost use Rattle.dates.specs.Masks.{weekday_mask, weekdays_of, IsWeekdayMask};

    ghost Value = { Option Weekday };

    ghost view = { λ m. weekdays_of m.bits };

    ghost invariant = { λ m. IsWeekdayMask m.bits };

    ghost inverse = { λ weekdays. record { bits = weekday_mask weekdays } };

    ghost inverse_ok = { λ m held i. record { bits = held i } };
}

impl WeekdayMask {
    /// The mask of a weekday, or of any.
    pub(crate) fn of(named: Option<Weekday>) -> WeekdayMask
        ensures { result ≡ named }
    {
        let bits = weekday_bits(named);
        WeekdayMask { bits }
    }

    /// The weekday, or any, as it is named.
    pub(crate) fn named(self) -> Option<Weekday>
        ensures { result ≡ self }
    {
        match self.bits {
            1 => Some(Weekday::Monday),
            2 => Some(Weekday::Tuesday),
            4 => Some(Weekday::Wednesday),
            8 => Some(Weekday::Thursday),
            16 => Some(Weekday::Friday),
            32 => Some(Weekday::Saturday),
            64 => Some(Weekday::Sunday),
            _ => None,
        }
    }

    /// Whether the day is of the weekday named, or any is.
    pub(crate) fn holds(self, day: Day) -> bool
        ensures { result ≡ in_weekdays self day }
    {
        has_bit(self.bits, day.weekday().index())
    }
}

fn weekday_bits(named: Option<Weekday>) -> u32
    ensures { result ≡ weekday_mask named }
{
    match named {
        Some(weekday) => 1 << weekday.index(),
        None => ANY_WEEKDAY,
    }
}

/// A weekday or any, as a week-and-day writes it.
#[derive(Clone, Copy)]
pub(crate) struct WeekdayOrAny(pub(crate) Option<Weekday>);

impl fmt::Display for WeekdayOrAny {
    ghost use Rattle.std.specs.Prelude.{Some};
    ghost use Rattle.dates.specs.Weekday.{weekdays_text};

    ghost output = { λ x. Some (weekdays_text x.0) };

    fn fmt<W: fmt::Write>(&self, f: &mut fmt::Formatter<W>) -> fmt::Result {
        f.write_str(match self.0 {
            Some(weekday) => weekday_name(weekday),
            None => "*",
        })
    }
}
