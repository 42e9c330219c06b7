//! On which days of a range does some exception of a schedule speak?
//!
//! `days` reads the building of a file and two days, and prints a line for each day of the range, each schedule that is
//! active on it, and each of its exceptions that speaks at some time of it, in the order in which they win.
//! `days_in_database` also has the store in a database, with the entries that were imported into its calendars
//! (`calendars`). The text is that of `specs/DayLines.antt`, byte for byte; `specs/Listed.antt` says over what.
//!
//! The days of a range (`range_days`) are those of the calendar that lie in it. An exception speaks at some time of a day
//! where it is in effect, and its list has a value other than NULL at one of its times (`speaking`). That the range has its
//! days, and that the exception speaks at some time, are laws (`laws`). A line has each of the list's times once and in
//! order, with the value from there on (`time_values`). `today` asks each calendar once a day.
#![tactic(auto)]

pub use days_run::{Bounds, Listed, days, days_in_database};
pub use laws::{exception_speaks_at_some_time, range_has_its_days};

mod calendars;
mod day_lines;
mod days_run;
mod exception_lines;
mod laws;
mod range_days;
mod speaking;
mod time_values;
mod today;
