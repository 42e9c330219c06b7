//! The days of a range.
ghost use Rattle.std.specs.Prelude.{◌≡◌, [], ◌++◌, IfOk, OnOk, filter};
ghost use Rattle.std.specs.List.{cons_option};
ghost use Rattle.dates.specs.Day.{day_of};
ghost use Rattle.dates.specs.Range.{in_range};
ghost use Rattle.cli_days.specs.RangeDays.{days_in, month_days, year_days};

use dates::{Day, Range};
use std::alloc::{AllocError, Global};

// The day with these parts, if the calendar has it.
fn day_of(year: u16, month: u8, number: u8) -> Option<Day>
    ensures { result ≡ day_of year month number }
{
    Day::new(i32::from(year), month, number)
}

fn push_day(days: &mut Vec<Day>, range: &Range, found: Option<Day>) -> Result<(), AllocError>
    ensures { OnOk result (days.new.items ≡ days.old.items ++ filter (in_range range.now) (cons_option found [])) }
{
    match found {
        Some(day) => {
            if range.holds(day) {
                days.push(day)?;
            }
            Ok(())
        }
        None => Ok(()),
    }
}

fn push_month(days: &mut Vec<Day>, range: &Range, year: u16, month: u8) -> Result<(), AllocError>
    ensures { OnOk result (days.new.items ≡ days.old.items ++ filter (in_range range.now) (month_days year month)) }
{
    for number in 1..32 {
        push_day(days, range, day_of(year, month, number))?;
    }
    Ok(())
}

fn push_year(days: &mut Vec<Day>, range: &Range, year: u16) -> Result<(), AllocError>
    ensures { OnOk result (days.new.items ≡ days.old.items ++ filter (in_range range.now) (year_days year)) }
{
    for month in 1..13 {
        push_month(days, range, year, month)?;
    }
    Ok(())
}

/// The days of a range, one after the other.
pub fn days_in(alloc: Global, range: &Range) -> Result<Vec<Day>, AllocError>
    ensures { IfOk result (λ days. days.items ≡ days_in range.now) }
{
    let mut days = Vec::new(alloc);
    for year in 1900..2155 {
        push_year(&mut days, range, year)?;
    }
    Ok(days)
}
