//! May this panel write this here, and what is present?
//!
//! A `Panel` asks for a `Content`: a value, or NULL, in one place of the priority array of a `Point`.
//! `permit` finds the first `Rule` against it. Without one, `PriorityArray::set` puts the value in its
//! place, and `PriorityArray::present` gives the present value (ANSI/ASHRAE 135-2016, clause 19.2, in this
//! desk's profile). An `Answer` is the reply to a command that was acted on, and a `CommandRow` what is kept of it.
//!
//! Beside them stand what every crate above uses: the `Listing`, a `Vec` whose capacity contracts don't see; the text
//! that bytes are and the name that a text is; the POINT line that a replay and a report print; and how a text is written whole.
#![tactic(auto)]

pub use answer::Answer;
pub use command_row::{CommandRow, CommandState};
pub use content::Content;
pub use kind::{GREATEST_ANALOG, Kind, LEAST_ANALOG, MOST_STATES};
pub use listing::Listing;
pub use name::{Name, NameFault};
pub use name_index::NameIndex;
pub use numbered_row::{LAST_NUMBER, NumberedRow};
pub use panel::Panel;
pub use point::Point;
pub use point_lines::{point_line, push_point_line, push_right};
pub use priority::{event_priority_of, write_priority_of};
pub use priority_array::{LOWEST_PRIORITY, PriorityArray};
pub use rights::{find_point, permit, permit_for};
pub use rule::Rule;
pub use text_writing::write_whole;
pub use texts::{is_known_key, name_of, text_of};

mod answer;
mod command_row;
mod content;
mod kind;
mod listing;
mod name;
mod name_index;
mod numbered_row;
mod panel;
mod point;
mod point_lines;
mod priority;
mod priority_array;
mod rights;
mod rule;
mod text_writing;
mod texts;
