//! What do the schedules of a building write and show at a moment?
//!
//! `settle` finds it out over the tables of a store, which it only reads: who is due, who leaves, and which
//! places each writes (`specs/Settled.antt`, ANSI/ASHRAE 135-2016, clause 12.24, in this desk's profile).
//! Calendars have the entries of the file and those that were imported (`specs/Calendars.antt`).
#![tactic(auto)]

pub use kept::Kept;
pub use settlement::{Settlement, settle, settle_again};
pub use today::calendars_today;

mod kept;
mod settlement;
mod today;
