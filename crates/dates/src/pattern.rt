//! Date patterns, which hold on a day field by field.
ghost use Rattle.std.specs.Prelude.{◌≡◌};

use crate::date_fields::DateFields;
use crate::month_days::DayMask;
use crate::months::MonthMask;
use crate::weekday::{WeekdayMask, read_weekday, weekday_name};
use crate::year::YearOrAny;
use crate::{Day, EntryFault, MonthDays, Months, Weekday, Year, notation};
use std::fmt;

/// A date pattern: the days that each of its four fields names (clause 21).
///
/// The months, the days of the month and the weekdays are kept as masks, from which the names are read back.
/// A pattern may name no day, as 31 February does, or a weekday that contradicts its date.
#[derive(Clone, Copy, Debug, PartialEq, Eq)]
pub struct Pattern {
    year: Option<Year>,
    months: MonthMask,
    days: DayMask,
    weekday: WeekdayMask,
}

impl Pattern {
    ghost use Rattle.dates.specs.Pattern.{in_pattern, pattern_at};

    /// The pattern with these fields; a year or a weekday that is `None` is any.
    pub fn new(
        year: Option<Year>,
        months: Months,
        days: MonthDays,
        weekday: Option<Weekday>,
    ) -> Pattern
        ensures { result ≡ record { year = year; months = months; days = days; weekday = weekday } }
    {
        Pattern {
            year,
            months: MonthMask::of(months),
            days: DayMask::of(days),
            weekday: WeekdayMask::of(weekday),
        }
    }

    /// Reads `Y-M-D` or `Y-M-D/W`.
    #[tactic(auto, unfolding(crate::specs::Pattern::pattern_at, crate::specs::Pattern::date_part, crate::specs::Pattern::weekday_part))]
    pub(crate) fn read(text: &str) -> Result<Pattern, EntryFault>
        ensures { result ≡ pattern_at text.now }
    {
        let (date, weekday) = match notation::cut_at(text, "/") {
            Some((date, weekday)) => (date, read_weekday(weekday).map(Some)),
            None => (text, Some(None)),
        };
        let DateFields { year, months, days } = DateFields::read(date)?;
        let weekday = weekday.ok_or(EntryFault::Weekday)?;
        Ok(Pattern::new(year, months, days, weekday))
    }

    /// The year, or any.
    pub fn year(&self) -> Option<Year>
        ensures { result ≡ self.now.year }
    {
        self.year
    }

    /// The months, as they are named.
    pub fn months(&self) -> Months
        ensures { result ≡ self.now.months }
    {
        self.months.named()
    }

    /// The days of the month, as they are named.
    pub fn days(&self) -> MonthDays
        ensures { result ≡ self.now.days }
    {
        self.days.named()
    }

    /// Whether the day is one of the pattern's.
    pub fn holds(&self, day: Day) -> bool
        ensures { result ≡ in_pattern self.now day }
    {
        Year::holds_or_any(self.year, day)
            && self.months.holds(day)
            && self.days.holds(day)
            && self.weekday.holds(day)
    }
}

impl fmt::Display for Pattern {
    ghost use Rattle.std.specs.Prelude.{Some};
    ghost use Rattle.dates.specs.Pattern.{pattern_text};

    ghost output = { λ x. Some (pattern_text x) };

    fn fmt<W: fmt::Write>(&self, f: &mut fmt::Formatter<W>) -> fmt::Result {
        let (months, days) = (self.months.named(), self.days.named());
        write!(f, "{}-{}-{}", YearOrAny(self.year), months, days)?;
        match self.weekday.named() {
            Some(weekday) => write!(f, "/{}", weekday_name(weekday)),
            None => Ok(()),
        }
    }
}
