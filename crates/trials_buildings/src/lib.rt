//! The worked building of the trials, a desk of it, and tables in a database.
#![tactic(auto)]

pub use databases::new_database;
pub use opening::opened;
pub use texts::{without_schedule, worked_building};

mod databases;
mod opening;
mod texts;
