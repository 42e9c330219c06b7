//! When did a panel's command give a point its value, and for how long?
//!
//! The definition looks at each point after each delivery of a record (`specs/Overrides.antt`): an override begins where
//! the first place that holds a value has it from a panel's command, which did not give it just before, and ends where
//! that command does not give it any more. `overrides_text` makes the deliveries to a store in memory, with the authors of
//! all places (`desk_why::Authors`), and watches each point (`watch`, `watching`); it tells the overrides in the order of
//! the points, a line each (`lines`, `specs/Lines.antt`).
#![tactic(auto)]

pub use watching::overrides_text;

mod lines;
mod looking;
mod overriding;
mod watch;
mod watching;
