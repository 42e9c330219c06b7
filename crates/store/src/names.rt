//! The names in the tables.
use points::Name;

/// The names that stand in the tables, each list by rising name and without repeats. The points of commands
/// are left out.
#[derive(Debug, Drop)]
pub struct Names {
    pub panels: Vec<Name>,
    pub points: Vec<Name>,
    pub schedules: Vec<Name>,
    pub calendars: Vec<Name>,
}
