//! The fields of a date, read as a pattern names them or as one full day.
ghost use Rattle.std.specs.Prelude.{◌≡◌};
ghost use Rattle.dates.specs.DateFields.{one_day};

use crate::{Day, EntryFault, MonthDays, Months, Year, notation};

/// The year, the month and the day of the month of a date, each as its field names it.
#[derive(Clone, Copy)]
pub struct DateFields {
    pub year: Option<Year>,
    pub months: Months,
    pub days: MonthDays,
}

impl DateFields {
    ghost use Rattle.dates.specs.DateFields.{date_fields_at, full_date_at};

    /// Reads `Y-M-D`.
    #[tactic(auto, unfolding(crate::specs::DateFields::date_fields_at))]
    pub fn read(text: &str) -> Result<DateFields, EntryFault>
        ensures { result ≡ date_fields_at text.now }
    {
        let (year, months, days) = notation::parts_at(text, "-").ok_or(EntryFault::Shape)?;
        let year = Year::read_or_any(year).ok_or(EntryFault::Year)?;
        let months = Months::read(months).ok_or(EntryFault::Month)?;
        let days = MonthDays::read(days).ok_or(EntryFault::Day)?;
        Ok(DateFields { year, months, days })
    }

    /// Reads a date whose fields are each one number, as the day that it is.
    #[tactic(auto, unfolding(crate::specs::DateFields::full_date_at))]
    pub fn read_day(text: &str) -> Result<Day, EntryFault>
        ensures { result ≡ full_date_at text.now }
    {
        if notation::cut_at(text, "/").is_some() {
            return Err(EntryFault::Shape);
        }
        let DateFields { year, months, days } = DateFields::read(text)?;
        one_day(year, months, days)
    }
}

/// The day that the fields name, where each is one number.
#[tactic(auto, unfolding(crate::specs::DateFields::one_day))]
fn one_day(years: Option<Year>, months: Months, days: MonthDays) -> Result<Day, EntryFault>
    ensures { result ≡ one_day years months days }
{
    let year = years.ok_or(EntryFault::HalfSpecified)?.number();
    let month = months.number().ok_or(EntryFault::HalfSpecified)?;
    let day = days.number().ok_or(EntryFault::HalfSpecified)?;
    Day::new(i32::from(year), month, day).ok_or(EntryFault::Day)
}
