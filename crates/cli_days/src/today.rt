//! Which calendars hold on a day.
ghost use Rattle.std.specs.Prelude.{◌≡◌, IfOk, true};
ghost use Rattle.dates.specs.Entry.{holds_on};
ghost use Rattle.jiff_core.specs.declared.civil.date.Date.{Date};
ghost use Rattle.sched.specs.Calendar.{calendar_holds, hold_on};

use dates::{Day, Entry, Range};
use points::Listing;
use sched::Calendar;
use std::alloc::{AllocError, Global};

// An entry that holds on each day.
#[tactic(auto, unfolding(dates::specs::Entry::holds_on))]
fn each_day() -> Entry
    ensures { (day : Date) → holds_on result day ≡ true }
{
    Entry::Range(Range {
        start: None,
        end: None,
    })
}

// A calendar that holds on each day, or on none.
fn calendar_that(alloc: Global, holds: bool) -> Result<Calendar, AllocError>
    ensures { IfOk result (λ calendar. (day : Date) → calendar_holds calendar day ≡ holds) }
{
    if !holds {
        return Ok(Calendar {
            entries: Listing::from_vec(Vec::new(alloc)),
        });
    }
    let entries = Vec::from_array(alloc, [each_day()])?;
    Ok(Calendar {
        entries: Listing::from_vec(entries),
    })
}

/// Calendars that hold on a day where these do: each is asked once, however many exceptions name it.
pub fn calendars_on(
    alloc: Global,
    calendars: &[Calendar],
    day: Day,
) -> Result<Vec<Calendar>, AllocError>
    ensures { IfOk result (λ today. hold_on day today.items ≡ hold_on day calendars.now) }
{
    let mut today = Vec::new(alloc);
    for calendar in calendars {
        today.push(calendar_that(alloc, calendar.holds(day))?)?;
    }
    Ok(today)
}
