//! Calendars of a building.

use crate::named::Named;
use points::Name;
use sched::Calendar;

/// A calendar of the building, with the entries of the file (12.9).
#[derive(Drop)]
pub struct NamedCalendar {
    pub name: Name,
    pub calendar: Calendar,
}

impl Named for NamedCalendar {
    ghost name_of = { λ calendar. calendar.name };

    fn name(&self) -> &Name {
        &self.name
    }
}
