//! Week-and-days, such as the last Friday of each month.
ghost use Rattle.std.specs.Prelude.{◌≡◌};

use crate::months::MonthMask;
use crate::week::{WeekMask, WeekOrAny};
use crate::weekday::{WeekdayMask, WeekdayOrAny, read_weekday_or_any};
use crate::{Day, EntryFault, Months, Week, Weekday, notation};
use std::fmt;

/// A week-and-day, the standard's WeekNDay: the days of a weekday in a week of a month, each kept
/// as masks, from which the names are read back.
#[derive(Clone, Copy, Debug, PartialEq, Eq)]
pub struct WeekNDay {
    months: MonthMask,
    week: WeekMask,
    weekday: WeekdayMask,
}

impl WeekNDay {
    ghost use Rattle.dates.specs.WeekNDay.{in_week_n_day, week_n_day_at};

    /// The week-and-day with these fields; a week or a weekday that is `None` is any.
    pub fn new(months: Months, week: Option<Week>, weekday: Option<Weekday>) -> WeekNDay
        ensures { result ≡ record { months = months; week = week; weekday = weekday } }
    {
        WeekNDay {
            months: MonthMask::of(months),
            week: WeekMask::of(week),
            weekday: WeekdayMask::of(weekday),
        }
    }

    /// Reads `M:K:W`.
    #[tactic(auto, unfolding(crate::specs::WeekNDay::week_n_day_at))]
    pub(crate) fn read(text: &str) -> Result<WeekNDay, EntryFault>
        ensures { result ≡ week_n_day_at text.now }
    {
        let (months, week, weekday) = notation::parts_at(text, ":").ok_or(EntryFault::Shape)?;
        let months = Months::read(months).ok_or(EntryFault::Month)?;
        let week = Week::read_or_any(week).ok_or(EntryFault::Week)?;
        let weekday = read_weekday_or_any(weekday).ok_or(EntryFault::Weekday)?;
        Ok(WeekNDay::new(months, week, weekday))
    }

    /// The months, as they are named.
    pub(crate) fn months(&self) -> Months
        ensures { result ≡ self.now.months }
    {
        self.months.named()
    }

    /// Whether the day is one of these.
    pub fn holds(&self, day: Day) -> bool
        ensures { result ≡ in_week_n_day self.now day }
    {
        self.months.holds(day) && self.week.holds(day) && self.weekday.holds(day)
    }
}

impl fmt::Display for WeekNDay {
    ghost use Rattle.std.specs.Prelude.{Some};
    ghost use Rattle.dates.specs.WeekNDay.{week_n_day_text};

    ghost output = { λ x. Some (week_n_day_text x) };

    fn fmt<W: fmt::Write>(&self, f: &mut fmt::Formatter<W>) -> fmt::Result {
        let months = self.months.named();
        let (week, weekday) = (
            WeekOrAny(self.week.named()),
            WeekdayOrAny(self.weekday.named()),
        );
        write!(f, "wnd:{months}:{week}:{weekday}")
    }
}
