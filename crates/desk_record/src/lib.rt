//! Which deliveries reached the desk, written down before they are made?
//!
//! A `Recorder` writes a delivery down and takes its line back; `deliver` writes each delivery down before the desk
//! makes it (`delivering`). A `Record` is a list of deliveries in a file, which is added to at its end (`record`,
//! `disk_lines`); `resume` takes it up again after any stop, and delivers its last line once more (`resuming`,
//! `last_line`, `again`), which leaves what it leaves once (`laws`); a file that ends as no line that is written begins
//! is not touched. What a record and a store are to each other is `specs/Recorded.antt`.
#![tactic(auto)]

pub use delivering::{Undelivered, deliver};
pub use laws::{each_beginning_may_be_torn, twice_leaves_the_tables};
pub use no_record::NoRecord;
pub use record::Record;
pub use recorder::{RecordFault, Recorder};
pub use resume_fault::{NotResumed, ResumeFault};
pub use resuming::resume;

mod again;
mod delivering;
mod disk_lines;
mod last_line;
mod laws;
mod line_file;
mod no_record;
mod record;
mod recorder;
mod resume_fault;
mod resuming;
mod same_delivery;
