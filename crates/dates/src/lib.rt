//! Which days does this entry hold on?
//!
//! The date patterns, date ranges and week-and-days of a calendar or a schedule (ANSI/ASHRAE
//! 135-2016, 12.9, 12.24 and clause 21), over civil days from 1900-01-01 to 2154-12-31.
//!
//! A text is read as an `Entry`: a `Pattern`, a `Range` or a `WeekNDay`, whose fields (`Year`, `Months`, `MonthDays`,
//! `Week`, `Weekday`) each name a set of days. An entry holds on the days that are in all of its fields' sets, which
//! are kept as bit masks, and is written in the one text that spells it. Of a text that spells none, an `EntryFault`
//! says why.
//!
//! What each type means stands in the file of `specs/` with its name: which values it has, on which days
//! it holds, how it is read and how it is spelled. `Notation.antt` cuts texts for all of them.
#![tactic(auto)]

pub use day::Day;
pub use entry::Entry;
pub use entry_fault::EntryFault;
pub use jiff::civil::Weekday;
pub use month_days::{MonthDay, MonthDays};
pub use months::{Month, Months};
pub use pattern::Pattern;
pub use range::Range;
pub use week::Week;
pub use week_n_day::WeekNDay;
pub use weekday::weekday_name;
pub use year::Year;

mod date_fields;
mod day;
mod entry;
mod entry_fault;
pub mod equality;
mod masks;
mod month_days;
mod months;
mod notation;
mod pattern;
mod range;
pub mod spelling;
mod week;
mod week_n_day;
mod weekday;
mod year;
