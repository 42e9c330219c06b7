//! What is this schedule's value on this day at this time, which of its lists gives it, and when does it change?
//!
//! Calendars and schedules (ANSI/ASHRAE 135-2016, 12.9 and 12.24, in this desk's profile): the value by
//! exceptions, weekly lists and default, and the moments of a day at which it changes.
//!
//! A `Schedule` holds exceptions, a `DayList` of time values for each weekday, and a default. An
//! `Exception` is in effect on the days of its `Period`, which is an entry of `dates` or a `Calendar` that
//! is handed in. A day and a `Time` go in, and the value comes out, alone or with the `Span` of the day
//! over which it stands; a day alone gives its segments, each the time from which a value stands.
//!
//! `source_of` says which exception, weekly list or default gives the value (`specs/Sources.antt`), and `next_change`
//! is the first segment of the day that begins after a time, with what gives its value (`specs/NextChange.antt`).
#![tactic(auto)]

pub use calendar::{CalId, Calendar, CalendarEntry};
pub use changes::{NextChange, next_change};
pub use day_list::{DayList, TimeValue};
pub use exception::{Exception, Period, exception_now};
pub use laws::{
    last_segment_has_the_value, list_value_is_the_latest, value_is_by_three_cases,
    value_stands_between_segments,
};
pub use schedule::Schedule;
pub use source::Source;
pub use source_laws::{next_change_is_the_first, source_has_the_value};
pub use sources::source_of;
pub use span::Span;
pub use time::Time;

mod calendar;
mod changes;
mod day_list;
mod exception;
mod laws;
mod schedule;
mod segments;
mod source;
mod source_laws;
mod sources;
mod span;
mod time;
