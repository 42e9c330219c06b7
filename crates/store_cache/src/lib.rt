//! What does a store answer from memory?
//!
//! `Remembered` is a `Store` over any other: what the store below has answered once of a next number, a priority array,
//! what a schedule shows, a calendar's entries and the last tick it answers from memory, and each commit carries over
//! what it changes. Of the rows of commands it knows some numbers that have none, those that a panel sends next; else
//! they go down, as the names and the commits do.
#![tactic(auto)]

pub use remembered::Remembered;

mod free_numbers;
mod memory;
mod remembered;
