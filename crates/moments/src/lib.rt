//! Which moment does this text mean on the building's clock?
//!
//! A user names a moment by hundredths of a second since 1970-01-01T00:00:00Z, or by what the building's clock shows
//! then: a day, or a day and a time, with or without how far the clock is ahead of UTC. `Moment::read` reads the text,
//! and `moment_meant` finds the moment: of an hour that the clock goes through twice the first one, and none of an hour
//! that it leaves out.
#![tactic(auto)]

pub use clock_search::moment_meant;
pub use moment::Moment;

mod clock_search;
mod moment;
