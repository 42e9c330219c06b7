//! Which days does this holiday list name, and for which calendars?
//!
//! `read_holidays` reads the records of a CSV text (RFC 4180, as `csv` reads it with its default terminator) with the
//! columns `calendar` and `entry`: each names a calendar of the building and spells an entry for it (ANSI/ASHRAE
//! 135-2016, 12.9 and clause 21; the list is this profile's). The whole list is read, or its least faulty record is
//! given by an `ImportFault`.
#![tactic(auto)]

pub use holiday_list::read_holidays;
pub use import_fault::{ImportCause, ImportFault};
pub use import_refusal::ImportRefusal;
pub use laws::all_rows_or_the_least_fault;

mod holiday_list;
mod import_fault;
mod import_refusal;
mod laws;
mod read_row;
mod record_texts;
mod records;
