//! Schedules of a building.

use crate::named::Named;
use points::{Name, NameIndex};
use sched::Schedule;

/// What becomes of the places that a schedule wrote last, on a day outside its effective period (this
/// profile's choice).
#[derive(Clone, Copy)]
pub enum OnLeave {
    /// They stay as they are.
    Stay,
    /// They are relinquished once.
    Release,
}

/// A schedule of the building: what it says of each day, and where it writes that (12.24).
#[derive(Drop)]
pub struct NamedSchedule {
    pub name: Name,
    /// The priority at which it writes, 1 to 16 and not 6.
    pub priority: u8,
    /// The names of the points that it writes to, each once.
    pub targets: NameIndex,
    pub on_leave: OnLeave,
    pub schedule: Schedule,
}

impl Named for NamedSchedule {
    ghost name_of = { λ schedule. schedule.name };

    fn name(&self) -> &Name {
        &self.name
    }
}
