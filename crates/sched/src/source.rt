//! What gives a value.
use crate::exception::Period;
use dates::Day;

/// The list of a schedule that gives its value, or its default.
#[derive(Clone, Copy)]
pub enum Source {
    /// The exception at an index of the schedule's exceptions, from 0, with the period that it is for.
    Exception { index: usize, period: Period },
    /// The list of this day's weekday.
    Weekly { day: Day },
    /// The default, which may be NULL.
    Default,
}
