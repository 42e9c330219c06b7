//! What may this building file say that it does not mean?
//!
//! `hints` reads the building of a file, and prints a line for each thing in it that is no fault but hardly meant
//! (ANSI/ASHRAE 135-2016, 12.9 and 12.24, in this desk's profile): a calendar that no exception uses, an entry that
//! holds on no day (`entry_days`), a panel without points, a schedule without a target or a day, an exception that has
//! no value all day (`null_lists`), and two schedules that write one place (`shared_places`).
//!
//! Beside a holiday list it also tells what separates the columns, which calendars the building lacks with the nearest
//! name (`list_hints`), and on which days the import into a desk without earlier imports would change the values of a
//! schedule (`changed_days`).
#![tactic(auto)]

pub use file_hints::hints;
pub use laws::{null_all_day_is_at_each_time, some_day_is_a_day};

mod calendar_hints;
mod changed_days;
mod entry_days;
mod file_hints;
mod laws;
mod list_bytes;
mod list_hints;
mod null_lists;
mod panel_hints;
mod record_texts;
mod schedule_hints;
mod separator;
mod shared_places;
