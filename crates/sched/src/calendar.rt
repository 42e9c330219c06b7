//! Calendars.
ghost use Rattle.std.specs.Prelude.{◌≡◌};
ghost use Rattle.sched.specs.Calendar.{calendar_holds};

use dates::{Day, Entry};
use points::Listing;

/// A calendar's index in the building's file, from 0.
#[derive(Clone, Copy)]
pub struct CalId {
    pub index: usize,
}

/// An entry for a calendar.
#[derive(Clone, Copy)]
pub struct CalendarEntry {
    pub calendar: CalId,
    pub entry: Entry,
}

/// A calendar (12.9): it holds on the days of its entries, those of the file and the imported ones
/// together.
#[derive(Drop)]
pub struct Calendar {
    pub entries: Listing<Entry>,
}

impl Calendar {
    /// Whether some entry holds on the day.
    pub fn holds(&self, day: Day) -> bool
        ensures { result ≡ calendar_holds self.now day }
    {
        self.entries.as_slice().iter().any(|entry| entry.holds(day))
    }
}
