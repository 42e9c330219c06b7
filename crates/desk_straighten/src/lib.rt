//! What list of deliveries would a perfect network have brought?
//!
//! `straighten` runs a list over empty tables in memory, and after each delivery pushes what it did: the commands that
//! its panel's next number passed, with a skip over each run of missing numbers (`panel_asks`, `runs`); a tick that was
//! acted on (`ticks`); the rows that an import added (`imports`, `new_rows`). Last come the commands that are still
//! parked (`parked_commands`). The definition and its laws are those of `deliveries`.
#![tactic(auto)]

pub use straightening::straighten;

mod imports;
mod new_rows;
mod panel_asks;
mod parked_commands;
mod runs;
mod straightening;
mod ticks;
