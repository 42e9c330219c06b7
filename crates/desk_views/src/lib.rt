//! How is what a follower holds told, as JSON?
//!
//! `why_view` tells why a point has its value (`why_views`): the next changes of the schedules that target it
//! (`change_views`), and the places that hold a value, each with what put it there and since when (`place_views`).
//! `push_point_view` writes a point as it stands in the list of all points (`point_views`), and `record_view` tells how far
//! a record was followed (`record_views`). Each is the text of `specs/Views.antt`, byte for byte.
//!
//! Nothing is escaped, since no quote, backslash or control character comes into a text. A name has ASCII letters, digits,
//! `-`, `_` and `.` alone (`points`, `specs/Name.antt`). An entry is spelled in lowercase letters, digits, `*`, `-`, `/`, `:`
//! and `.` (`dates`, `specs/Entry.antt`). The rest is numbers and fixed words, titles of weekdays among them (`desk_why`,
//! `specs/AuthorText.antt`).
#![tactic(auto)]

pub use point_views::push_point_view;
pub use record_views::record_view;
pub use why_views::why_view;

mod change_views;
mod numbers;
mod place_views;
mod point_views;
mod present;
mod record_views;
mod since;
mod why_views;
