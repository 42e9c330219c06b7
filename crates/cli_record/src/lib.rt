//! Is a record that of a database?
//!
//! `compare_tables` reads two stores of tables and gives each `Difference` between them at the names of a building:
//! next numbers and rows of panels (`panels`), values in the places of points (`places`), what schedules show
//! (`schedules`), imported entries (`calendars`) and the last tick. Both stores are only read. Which differences there
//! are, and in which order, is `specs/Differences.antt`; that there is none just where the tables agree in what is
//! compared is a law (`laws`).
//!
//! `open_beside` opens a desk over a store once the store is seen to be the record's own. The whole lines of the record
//! are delivered, one by one, to a desk in memory (`record_lines`, `replayed`), and what no rule of the building decides is
//! compared (`belonging`, `sent_runs`), since the building's file may have been edited meanwhile; then the first place of a
//! point that has another value is told with the desk (`places`).
//!
//! `replay_whole` delivers all of a record's whole lines so, and tells how many bytes stand after them.
//!
//! `check_record` reads the building of a file and the whole lines of a record (`whole_list`), delivers them to a desk
//! in memory, and prints whether its tables are those of the database (`record_run`, `record_text`).
#![tactic(auto)]

pub use beside::{Beside, Database, Unopened, open_beside};
pub use beside_fault::BesideFault;
pub use comparing::{CompareFault, compare_tables};
pub use difference::Difference;
pub use laws::{no_difference_where_tables_agree, no_place_where_points_agree};
pub use record_run::{RecordChecked, check_record};
pub use replayed::{WholeReplay, replay_whole};

mod adding;
mod belonging;
mod beside;
mod beside_fault;
mod calendars;
mod comparing;
mod difference;
mod laws;
mod panels;
mod places;
mod record_lines;
mod record_run;
mod record_text;
mod replayed;
mod same_row;
mod schedules;
mod sent_runs;
mod whole_list;
