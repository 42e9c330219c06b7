//! What does this delivery answer and leave, and what do a point and the report of a day say?
//!
//! A `Desk` has a building and a store of tables. It answers a panel's command or skip by `desk_commands`, a
//! tick or an import by `desk_clock`, one delivery after the other (`operating`); before it is opened over a store,
//! the names in its tables are looked over (`opening`).
//!
//! That the replies and the tables are those of the definitions, whatever is repeated, lost or reordered, is
//! the contract of `Desk::run` (`specs/Headline.antt`); the definitions are those of `deliveries`.
//!
//! The report of a day has a line for each schedule, whether it is active on the day and which value it has when
//! (`report_lines`), and one for each point, how it is now (`points`): the text of `specs/DayReport.antt`, byte for
//! byte.
#![tactic(auto)]

pub use opening::look_over;
pub use operating::Desk;
pub use point_state::{PointState, read_point};
pub use whole_report::day_report;

mod opening;
mod operating;
mod point_state;
mod report_lines;
mod whole_report;
