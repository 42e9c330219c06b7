//! What does this file say of a building?
//!
//! `Building::read` reads the bytes of a TOML file: its tree by `toml`, then the top table (`TopTable`), and then the
//! points, the panels beside the points, the calendars, and the schedules beside the points and the calendars
//! (ANSI/ASHRAE 135-2016, 12.9 and 12.24, in this desk's profile). Of a file at fault it reports the first fault. What
//! is read is found by name at about the same cost whatever its number.
//!
//! From the bottom up: `Fields` is a table with its `Location`, which gives the value at a `Key` in the type that the
//! key takes, or the fault that says why not; `read_items` reads a list item by item, `read_references` a list of
//! names, and `read_section` the tables of a section, each by what knows its table (`PointTable`, `PanelTable`,
//! `CalendarTable`, `ScheduleTable`). What is wrong in a file is a `FileFault` at a `Location`, and is printed as one
//! line: its number, the section, the position in it, and the key. A `Roster` keeps items by name.
#![tactic(auto)]

pub use building::Building;
pub use building_refusal::BuildingFault;
pub use cause::Cause;
pub use file_fault::FileFault;
pub use key::Key;
pub use local_times::ZoneRule;
pub use location::Location;
pub use named::Named;
pub use named_calendar::NamedCalendar;
pub use named_schedule::{NamedSchedule, OnLeave};
pub use roster::Roster;
pub use section::Section;
pub use time_value::{digit, read_time, value_at};

mod building;
mod building_refusal;
mod calendar_table;
mod cause;
mod day_values;
mod entry_text;
mod exception_table;
mod fields;
mod file_fault;
mod item_list;
mod key;
mod kinds;
mod location;
mod named;
mod named_calendar;
mod named_schedule;
mod panel_table;
mod parsed_file;
mod point_table;
mod priority;
mod reference;
mod roster;
mod schedule_table;
mod section;
mod section_tables;
mod sections;
mod time_lists;
mod time_value;
mod top_table;
