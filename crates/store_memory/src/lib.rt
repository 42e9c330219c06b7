//! What do the desk's tables in memory hold?
//!
//! `MemStore` is a `Store` over the next numbers and the rows of panels, the priority arrays of points, what schedules
//! show and the entries of calendars: maps of std, and of `indexmap` where what was found last is looked at first. A
//! commit makes an entry for each item of the change first, which is all that can fail, and then writes the change. It
//! never fails as a device does, and a stop loses it.
#![tactic(auto)]

pub use calendar_table::CalendarTable;
pub use calendars::Calendars;
pub use mem_store::MemStore;
pub use spelled_entry::SpelledEntry;

mod arrays;
mod calendar_table;
mod calendars;
mod found_last;
mod mem_store;
mod panel_table;
mod panels;
mod row_slots;
mod shown_values;
mod spelled_entry;
