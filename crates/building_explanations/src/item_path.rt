//! Where an item stands in its table.

use crate::quoting::KeyText;
use std::fmt;

/// Where an item stands in its table, as `entries[3]`, `weekly[1][2] (Monday)` or `exception[2].times[1]`. Items count
/// from 1.
#[derive(Clone, Copy)]
pub(crate) struct ItemPath<'a> {
    /// The exception in the schedule.
    pub exception: Option<usize>,
    pub key: &'a str,
    /// The day of the week whose list it is: 1 is Monday.
    pub day: Option<usize>,
    pub index: Option<usize>,
}

impl<'a> ItemPath<'a> {
    /// The list of a day, counted from 1.
    pub fn on_day(self, day: usize) -> ItemPath<'a> {
        ItemPath {
            day: Some(day),
            ..self
        }
    }

    /// The item of the list, counted from 1.
    pub fn at(self, index: usize) -> ItemPath<'a> {
        ItemPath {
            index: Some(index),
            ..self
        }
    }
}

impl fmt::Display for ItemPath<'_> {
    fn fmt<W: fmt::Write>(&self, f: &mut fmt::Formatter<W>) -> fmt::Result {
        if let Some(exception) = self.exception {
            write!(f, "exception[{exception}].")?;
        }
        write!(f, "{}", KeyText(self.key))?;
        if let Some(day) = self.day {
            write!(f, "[{day}]")?;
        }
        if let Some(index) = self.index {
            write!(f, "[{index}]")?;
        }
        match self.day {
            Some(day) => write!(f, " ({})", day_name(day)),
            None => Ok(()),
        }
    }
}

/// The name of a day of the week: 1 is Monday.
fn day_name(day: usize) -> &'static str {
    match day {
        1 => "Monday",
        2 => "Tuesday",
        3 => "Wednesday",
        4 => "Thursday",
        5 => "Friday",
        6 => "Saturday",
        7 => "Sunday",
        _ => "no day",
    }
}
