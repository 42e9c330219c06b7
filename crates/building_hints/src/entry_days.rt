//! Whether an entry holds on a day at all.
ghost use Rattle.std.specs.Prelude.{◌≡◌, true};
ghost use Rattle.building_hints.specs.EntryDays.{days_tried, holds_at, holds_in_days, holds_in_months, holds_in_years, holds_on_some_day, is_range_of_days, months_tried, years_tried};

use dates::{Day, Entry, MonthDays, Months, Range, Year};

const ANY_YEAR: (u16, u16) = (1900, 2155);

const ANY_MONTH: (u8, u8) = (1, 13);

const ANY_DAY: (u8, u8) = (1, 32);

/// Whether the entry holds on some day from 1900-01-01 to 2154-12-31. Of a pattern only the years, months and days that
/// it names are tried, and a range is known by its ends.
pub(crate) fn holds_on_some_day(entry: &Entry) -> bool
    ensures { result ≡ holds_on_some_day entry.now }
{
    entry.lies_in_range();
    match entry {
        Entry::Pattern(pattern) => holds_in_years(
            entry,
            years_tried(pattern.year()),
            months_tried(pattern.months()),
            days_tried(pattern.days()),
        ),
        Entry::Range(range) => is_range_of_days(range),
        Entry::WeekNDay(_) => holds_in_any_year(entry),
    }
}

/// The years that are tried, from a first one to before another.
fn years_tried(year: Option<Year>) -> (u16, u16)
    ensures { result ≡ years_tried year }
{
    match year {
        Some(year) => (year.number(), year.number() + 1),
        None => ANY_YEAR,
    }
}

/// The months that are tried.
fn months_tried(months: Months) -> (u8, u8)
    ensures { result ≡ months_tried months }
{
    match months {
        Months::One(month) => (month.number(), month.number() + 1),
        _ => ANY_MONTH,
    }
}

/// The days of a month that are tried.
fn days_tried(days: MonthDays) -> (u8, u8)
    ensures { result ≡ days_tried days }
{
    match days {
        MonthDays::One(day) => (day.number(), day.number() + 1),
        _ => ANY_DAY,
    }
}

/// Whether a range has a day.
fn is_range_of_days(range: &Range) -> bool
    ensures { result ≡ is_range_of_days range.now }
{
    match (range.start, range.end) {
        (Some(start), Some(end)) => start <= end,
        _ => true,
    }
}

/// Whether the entry holds on a day of any year.
fn holds_in_any_year(entry: &Entry) -> bool
    ensures { result ≡ holds_on_some_day entry.now }
{
    if holds_in_a_leap_year(entry) {
        return true;
    }
    holds_in_years(entry, ANY_YEAR, ANY_MONTH, ANY_DAY)
}

/// Whether the entry holds on a day of the first seven leap years from 2000 on, of which each begins on another weekday:
/// a week-and-day does, and is found there soon.
fn holds_in_a_leap_year(entry: &Entry) -> bool
    ensures { result ≡ true → holds_on_some_day entry.now ≡ true }
{
    for index in 0..7 {
        if holds_in_months(entry, 2000 + 4 * index, ANY_MONTH, ANY_DAY) {
            return true;
        }
    }
    false
}

/// Whether the entry holds on a day of these years, months and days.
fn holds_in_years(entry: &Entry, years: (u16, u16), months: (u8, u8), days: (u8, u8)) -> bool
    ensures { result ≡ holds_in_years entry.now years months days }
{
    for year in years.0..years.1 {
        if holds_in_months(entry, year, months, days) {
            return true;
        }
    }
    false
}

fn holds_in_months(entry: &Entry, year: u16, months: (u8, u8), days: (u8, u8)) -> bool
    ensures { result ≡ holds_in_months entry.now months days year }
{
    for month in months.0..months.1 {
        if holds_in_days(entry, year, month, days) {
            return true;
        }
    }
    false
}

fn holds_in_days(entry: &Entry, year: u16, month: u8, days: (u8, u8)) -> bool
    ensures { result ≡ holds_in_days entry.now days year month }
{
    for day in days.0..days.1 {
        if holds_at(entry, year, month, day) {
            return true;
        }
    }
    false
}

/// Whether there is a day with these parts, and the entry holds on it.
fn holds_at(entry: &Entry, year: u16, month: u8, day: u8) -> bool
    ensures { result ≡ holds_at entry.now year month day }
{
    match Day::new(i32::from(year), month, day) {
        Some(day) => entry.holds(day),
        None => false,
    }
}
