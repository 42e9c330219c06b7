//! Which day and time does the building's clock show at this moment?
//!
//! A moment is counted in hundredths of a second from 1970-01-01T00:00:00Z on, without leap seconds, and a
//! `ZoneRule` says how far the clock is ahead of UTC at it. `local_time` gives the day and the time of day
//! that the clock shows then, in the years 1970 to 2154. So the hour that the clock goes through twice in
//! autumn is shown twice, and the hour that it leaves out in spring never. A rule is read from a POSIX rule text and
//! applied by `jiff`.
#![tactic(auto)]

pub use local_clock::{LocalTime, local_time};
pub use zone_rule::ZoneRule;

mod local_clock;
mod zone_rule;
