//! The days over which calendars and schedules run.
ghost use Rattle.std.specs.Prelude.{◌≡◌, ◌↔◌, pos, IsSome, IfSome, Some};
ghost use Rattle.std.specs.Int.{IsInRange};
ghost use Rattle.jiff_core.specs.Date.{IsYmd, weekday_of};
ghost use Rattle.jiff_core.specs.Weekday.{monday_zero};
ghost use Rattle.jiff_core.specs.declared.civil.date.Date.{Date as a_date};
ghost use Rattle.dates.specs.Day.{days_left, IsDay, SpellsDay};

use crate::date_fields::DateFields;
use jiff::civil::{Date, Weekday};
use jiff_core::civil;
use std::fmt;
use std::marker::Model;

/// A civil day from 1900-01-01 to 2154-12-31. Days compare by their order in time.
///
/// It is made and asked by a `jiff::civil::Date`, and holds the plain date that stands behind one, so that a proof of
/// what only names a day has no `jiff` to read.
#[derive(Clone, Copy, PartialEq, Eq, PartialOrd, Ord, Debug)]
pub struct Day {
    date: civil::Date,
}

impl Model for Day {
    ghost use Rattle.jiff_core.specs.declared.civil.date.Date.{Date as Plain};
    ghost use Rattle.dates.specs.Day.{IsOfYears};

    ghost Value = { Plain };

    ghost view = { λ d. d.date };

    ghost invariant = { λ d. IsOfYears d.date };

    ghost inverse = { λ d. record { date = d } };
}

impl Day {
    /// The day with these parts, where the calendar has it and its year is 1900 to 2154.
    pub fn new(year: i32, month: u8, day: u8) -> Option<Day>
        ensures exists { IsSome result ↔ IsDay year month day }
        ensures value { IfSome result (IsYmd year (pos month) (pos day)) }
    {
        if year < 1900 || year > 2154 || month > 12 || day > 31 {
            return None;
        }
        match Date::new(year as i16, month as i8, day as i8) {
            Ok(date) => Some(Day {
                date: date.to_plain(),
            }),
            Err(_) => None,
        }
    }

    /// The day from 1900-01-01 to 2154-12-31 that a text spells as `YYYY-MM-DD`, if it is one. Takes no memory.
    pub fn read(text: &str) -> Option<Day>
        ensures { (day : a_date) → (result ≡ Some day) ↔ SpellsDay text.now day }
    {
        DateFields::read_day(text).ok()
    }

    /// The year, 1900 to 2154.
    pub fn year(self) -> u16
        ensures value { pos result ≡ self.year }
        ensures range { IsInRange 1900 2154 result }
    {
        self.date.year as u16
    }

    /// The month, 1 to 12.
    pub fn month(self) -> u8
        ensures value { result ≡ self.month }
        ensures range { IsInRange 1 12 result }
    {
        self.date.month
    }

    /// The day of the month, 1 to 31.
    pub fn day_of_month(self) -> u8
        ensures value { result ≡ self.day }
        ensures range { IsInRange 1 31 result }
    {
        self.date.day
    }

    /// The day of the week.
    pub fn weekday(self) -> Weekday
        ensures { monday_zero result ≡ weekday_of self }
    {
        Date::from_plain(self.date).weekday()
    }

    /// How many days follow this one in its month, 0 to 30.
    pub fn days_left_in_month(self) -> u8
        ensures { result ≡ days_left self }
    {
        let month_length = Date::from_plain(self.date).days_in_month();
        month_length as u8 - self.date.day
    }
}

impl fmt::Display for Day {
    ghost use Rattle.std.specs.Prelude.{Some};
    ghost use Rattle.dates.specs.Day.{day_text};

    ghost output = { λ x. Some (day_text x) };

    fn fmt<W: fmt::Write>(&self, f: &mut fmt::Formatter<W>) -> fmt::Result {
        write!(
            f,
            "{}-{:02}-{:02}",
            self.year(),
            self.month(),
            self.day_of_month()
        )
    }
}
