//! The weeks 1 to 9 of a month, which a week-and-day names.
ghost use Rattle.std.specs.Prelude.{◌≡◌};
ghost use Rattle.dates.specs.Masks.{week_mask, weeks_left_mask};

use crate::Day;
use crate::masks::{ANY_DAY, ANY_DAYS_LEFT, has_both};
use std::fmt;
use std::marker::Model;

/// A week of a month: seven days counted from its start, or from its end.
///
/// Weeks 1 to 6 are the standard's. Weeks 7 to 9 are this profile's own.
#[derive(Clone, Copy)]
pub enum Week {
    /// Week 1: the days 1 to 7.
    First,
    /// Week 2: the days 8 to 14.
    Second,
    /// Week 3: the days 15 to 21.
    Third,
    /// Week 4: the days 22 to 28.
    Fourth,
    /// Week 5: the days 29 to 31.
    Fifth,
    /// Week 6: the last seven days.
    Last,
    /// Week 7: the seven days before the last seven.
    SecondLast,
    /// Week 8: the seven days before the last 14.
    ThirdLast,
    /// Week 9: the seven days before the last 21.
    FourthLast,
}

impl Week {
    ghost use Rattle.dates.specs.Week.{week_at, weeks_at};

    /// Reads one digit.
    #[tactic(auto, unfolding(crate::specs::Week::week_at))]
    fn read(text: &str) -> Option<Week>
        ensures { result ≡ week_at text.now }
    {
        match text {
            "1" => Some(Week::First),
            "2" => Some(Week::Second),
            "3" => Some(Week::Third),
            "4" => Some(Week::Fourth),
            "5" => Some(Week::Fifth),
            "6" => Some(Week::Last),
            "7" => Some(Week::SecondLast),
            "8" => Some(Week::ThirdLast),
            "9" => Some(Week::FourthLast),
            _ => None,
        }
    }

    /// Reads one digit, or `*` for any week.
    #[tactic(auto, unfolding(crate::specs::Week::weeks_at))]
    pub(crate) fn read_or_any(text: &str) -> Option<Option<Week>>
        ensures { result ≡ weeks_at text.now }
    {
        match text {
            "*" => Some(None),
            _ => Some(Some(Week::read(text)?)),
        }
    }
}

/// Weeks of a month as two masks, both of which must hold: with a bit for each of the days 1 to 31, and with one
/// for each number of days left in the month, 0 to 30. Contracts see it as the week that it names, or any.
#[derive(Clone, Copy, Debug, PartialEq, Eq)]
pub(crate) struct WeekMask {
    days: u32,
    days_left: u32,
}

impl Model for WeekMask {
    ghost use Rattle.std.specs.Prelude.{Option};
    ghost use Rattle.dates.specs.declared.week.Week.{Week};
    ghost use Rattle.dates.specs.Masks.{week_mask, weeks_left_mask, weeks_of, IsWeekMask};

    ghost Value = { Option Week };

    ghost view = { λ m. weeks_of m.days m.days_left };

    ghost invariant = { λ m. IsWeekMask m.days m.days_left };

    ghost inverse = { λ weeks. record { days = week_mask weeks; days_left = weeks_left_mask weeks } };

    ghost inverse_ok = { λ m held i. record { days = held.0 i; days_left = held.1 i } };
}

impl WeekMask {
    ghost use Rattle.dates.specs.Week.{in_weeks};

    /// The masks of a week, or of any.
    pub(crate) fn of(named: Option<Week>) -> WeekMask
        ensures { result ≡ named }
    {
        let days = week_bits(named);
        let days_left = weeks_left_bits(named);
        WeekMask { days, days_left }
    }

    /// The week, or any, as it is named.
    pub(crate) fn named(self) -> Option<Week>
        ensures { result ≡ self }
    {
        match self.days_left {
            0x7f => Some(Week::Last),
            0x3f80 => Some(Week::SecondLast),
            0x1f_c000 => Some(Week::ThirdLast),
            0xfe0_0000 => Some(Week::FourthLast),
            _ => match self.days {
                0xfe => Some(Week::First),
                0x7f00 => Some(Week::Second),
                0x3f_8000 => Some(Week::Third),
                0x1fc0_0000 => Some(Week::Fourth),
                0xe000_0000 => Some(Week::Fifth),
                _ => None,
            },
        }
    }

    /// Whether the day lies in the week named of its month, or in any.
    pub(crate) fn holds(self, day: Day) -> bool
        ensures { result ≡ in_weeks self day }
    {
        has_both(self.days, self.days_left, day)
    }
}

// Weeks 1 to 5 are counted by the day of the month.
fn week_bits(named: Option<Week>) -> u32
    ensures { result ≡ week_mask named }
{
    match named {
        Some(Week::First) => 0xfe,
        Some(Week::Second) => 0x7f00,
        Some(Week::Third) => 0x3f_8000,
        Some(Week::Fourth) => 0x1fc0_0000,
        Some(Week::Fifth) => 0xe000_0000,
        _ => ANY_DAY,
    }
}

// Weeks 6 to 9 are counted by the days that follow in the month.
fn weeks_left_bits(named: Option<Week>) -> u32
    ensures { result ≡ weeks_left_mask named }
{
    match named {
        Some(Week::Last) => 0x7f,
        Some(Week::SecondLast) => 0x3f80,
        Some(Week::ThirdLast) => 0x1f_c000,
        Some(Week::FourthLast) => 0xfe0_0000,
        _ => ANY_DAYS_LEFT,
    }
}

impl fmt::Display for Week {
    ghost use Rattle.std.specs.Prelude.{Some};
    ghost use Rattle.dates.specs.Week.{week_text};

    ghost output = { λ x. Some (week_text x) };

    fn fmt<W: fmt::Write>(&self, f: &mut fmt::Formatter<W>) -> fmt::Result {
        f.write_str(match self {
            Week::First => "1",
            Week::Second => "2",
            Week::Third => "3",
            Week::Fourth => "4",
            Week::Fifth => "5",
            Week::Last => "6",
            Week::SecondLast => "7",
            Week::ThirdLast => "8",
            Week::FourthLast => "9",
        })
    }
}

/// A week or any, as it is written.
#[derive(Clone, Copy)]
pub(crate) struct WeekOrAny(pub(crate) Option<Week>);

impl fmt::Display for WeekOrAny {
    ghost use Rattle.std.specs.Prelude.{Some};
    ghost use Rattle.dates.specs.Week.{weeks_text};

    ghost output = { λ x. Some (weeks_text x.0) };

    fn fmt<W: fmt::Write>(&self, f: &mut fmt::Formatter<W>) -> fmt::Result {
        match self.0 {
            Some(week) => week.fmt(f),
            None => f.write_str("*"),
        }
    }
}
