//! What of a store's tables does not suit a building, and what does a desk of a changed building take along?
//!
//! `survey_tables` reads the names that stand in the tables, the places of the points, what panels, schedules and
//! calendars have there, and the last tick. It gives each `Finding`: a name that the building lacks, a value in a place
//! where nothing writes (`place_findings`), or outside its kind, and a last tick at which the building's clock shows no
//! time (`names`); and what the tables hold (`Holdings`). The store is only read. Which findings there are, and in which
//! order, is `specs/Findings.antt`.
//!
//! `adopt` takes the tables along. Names that changed are given as renamings. Each counts in the sections alone in which
//! its old name stands in the tables and its new one in the building (`sections`), and none may make one thing of two.
//! What belongs to names that the building lacks stays behind, and so do places that nothing in the building writes and
//! values outside their kinds. Every schedule is quiet, so that the next tick writes what the building says now. Panels
//! keep their next numbers, rows and answers, calendars their imported entries.
#![tactic(auto)]

pub use adopting::{AdoptFault, adopt};
pub use finding::Finding;
pub use holdings::Holdings;
pub use laws::adopted_tables_suit;
pub use notes::{Notes, adoption_notes};
pub use renamed_name::{NameKind, RenamedName};
pub use renaming::Renaming;
pub use surveying::{Survey, survey_tables};
pub use unused_renaming::{UnusedReason, UnusedRenaming};

mod adopting;
mod calendars;
mod finding;
mod holdings;
mod laws;
mod names;
mod notes;
mod panels;
mod place_findings;
mod places;
mod reading;
mod renamed_name;
mod renaming;
mod sections;
mod surveying;
mod unused_renaming;
