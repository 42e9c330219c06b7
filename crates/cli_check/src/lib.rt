//! What do `desk check` and `desk adopt` print and make, and how do they end?
//!
//! `check` reads the building of a file, and prints what it has as one line (`file_check`). `check_database` also has
//! the store in a database, if there is one, and prints what of its tables does not suit the building (`desk_adopt`),
//! a line each, or where all suits the same line and what the tables hold (`database_check`). What ends it besides is a
//! `CheckFault`: a fault of the building file is explained where that `Detail` is asked for (`explained`, by
//! `building_explanations`).
//!
//! `adopt_database` reads the building of a file and the renamings among the words (`renamings`), has the store in a
//! database and another one that is empty, and takes along what the building has in the first (`desk_adopt`). Its
//! text tells what has another name now, what stays behind, which renamings count nowhere, and what the new tables hold
//! (`adoption_text`). What ends it besides is an `AdoptionFault`. `finish` closes the database that was made, puts it in
//! its place, and then prints the text (`ending`): also for `desk rebuild` (`cli_rebuild`).
#![tactic(auto)]

pub use adoption_fault::{AdoptionFault, FindFault, MakeFault};
pub use adoption_run::{Adopted, Paths, TakenAlong, adopt_database};
pub use database_check::{Checked, check_database};
pub use detail::Detail;
pub use ending::finish;
pub use file_check::check;

mod adoption_fault;
mod adoption_run;
mod adoption_text;
mod check_fault;
mod database_check;
mod detail;
mod ending;
mod explained;
mod file_check;
mod renamings;
mod survey_text;
