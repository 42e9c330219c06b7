//! What does a store hold, put into an empty one?
//!
//! `copy_tables` reads all tables of one store, by the names that stand in them, and puts them into another, which holds
//! nothing, in one commit. The first store is only read. Of a panel's rows those go along that it may still repeat or use
//! (`specs/Remembered.antt`), as a desk keeps no others; `put_rows` has those of one panel. `can_stand` is the test of a
//! change's numbers and answers before a commit.
#![tactic(auto)]

pub use copying::{CopyFault, copy_tables};
pub use panels::put_rows;
pub use standing::can_stand;

mod calendars;
mod copying;
mod panels;
mod places;
mod schedules;
mod standing;
