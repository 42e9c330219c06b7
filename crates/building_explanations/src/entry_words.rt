//! What is wrong with a text that is no entry.

use dates::{Day, Entry, EntryFault, MonthDays, Months, Pattern};
use std::fmt;

/// What is wrong with a text that is no entry.
#[derive(Clone, Copy)]
pub(crate) struct EntryRemark {
    form: Form,
    words: &'static str,
}

/// The form of an entry, or the part of it, that a fault is looked at in.
#[derive(Clone, Copy)]
enum Form {
    Pattern,
    WeekNDay,
    RangeStart,
    RangeEnd,
}

impl fmt::Display for EntryRemark {
    fn fmt<W: fmt::Write>(&self, f: &mut fmt::Formatter<W>) -> fmt::Result {
        match self.form {
            Form::RangeStart => f.write_str("at the start of the range, ")?,
            Form::RangeEnd => f.write_str("at the end of the range, ")?,
            _ => {}
        }
        f.write_str(self.words)
    }
}

/// What is wrong with a text as an entry: nothing where it is one.
pub(crate) fn entry_remark(text: &str) -> Option<EntryRemark> {
    match Entry::read(text) {
        Ok(_) => None,
        Err(fault) => Some(remark_on(text, fault)),
    }
}

/// What is wrong with a text as a period, which is a range: nothing where it is one.
pub(crate) fn period_remark(text: &str) -> Option<EntryRemark> {
    match Entry::read(text) {
        Ok(Entry::Range(_)) => None,
        Ok(_) => Some(no_range()),
        Err(EntryFault::Shape) if !text.contains("..") => Some(no_range()),
        Err(fault) => Some(remark_on(text, fault)),
    }
}

fn no_range() -> EntryRemark {
    EntryRemark {
        form: Form::Pattern,
        words: "a period is a range A..B, each of A and B a date YYYY-MM-DD or *",
    }
}

fn remark_on(text: &str, fault: EntryFault) -> EntryRemark {
    let form = form_of(text);
    let words = match form {
        Form::Pattern => pattern_words(fault),
        Form::WeekNDay => week_n_day_words(fault),
        Form::RangeStart | Form::RangeEnd => range_words(fault, is_a_date_in_form(text, form)),
    };
    EntryRemark { form, words }
}

/// The form in which a text is read; of a range the end that is at fault first.
fn form_of(text: &str) -> Form {
    if text.starts_with("wnd:") {
        return Form::WeekNDay;
    }
    match text.split_once("..") {
        None => Form::Pattern,
        Some((start, _)) if is_range_end(start) => Form::RangeEnd,
        Some(_) => Form::RangeStart,
    }
}

/// Whether a text may stand at an end of a range.
fn is_range_end(text: &str) -> bool {
    match Entry::read(text) {
        _ if text == "*" => true,
        Ok(Entry::Pattern(pattern)) => !text.contains('/') && day_of(pattern).is_some(),
        _ => false,
    }
}

/// The day that a pattern alone names, where the calendar has it.
fn day_of(pattern: Pattern) -> Option<Day> {
    let year = i32::from(pattern.year()?.number());
    Day::new(
        year,
        month_of(pattern.months())?,
        day_of_month(pattern.days())?,
    )
}

/// The number of the month, where it is one alone.
fn month_of(months: Months) -> Option<u8> {
    match months {
        Months::One(month) => Some(month.number()),
        _ => None,
    }
}

/// The number of the day of the month, where it is one alone.
fn day_of_month(days: MonthDays) -> Option<u8> {
    match days {
        MonthDays::One(day) => Some(day.number()),
        _ => None,
    }
}

/// Whether the end of a range has the form of a date, which the calendar may still lack.
fn is_a_date_in_form(text: &str, form: Form) -> bool {
    match (text.split_once(".."), form) {
        (Some((start, _)), Form::RangeStart) => Entry::read(start).is_ok(),
        (Some((_, end)), _) => Entry::read(end).is_ok(),
        (None, _) => false,
    }
}

fn pattern_words(fault: EntryFault) -> &'static str {
    match fault {
        EntryFault::Shape => {
            "an entry is Y-M-D, Y-M-D/W, A..B or wnd:M:K:W, as 2025-12-25, *-*-last/fri, 2025-12-24..2026-01-06 or wnd:*:1:mon"
        }
        EntryFault::Year => "a year has four digits, 1900 to 2154, or is *",
        EntryFault::Month => "a month has two digits, 01 to 12, or is odd, even or *",
        EntryFault::Day => "a day has two digits, 01 to 31, or is last, odd, even or *",
        EntryFault::Weekday => "a weekday is mon, tue, wed, thu, fri, sat or sun",
        EntryFault::Week => "a week is 1 to 9, or *",
        EntryFault::HalfSpecified => "each of its parts is a number",
    }
}

fn week_n_day_words(fault: EntryFault) -> &'static str {
    match fault {
        EntryFault::Shape => "a week of a month is wnd:M:K:W, as wnd:*:1:mon",
        EntryFault::Weekday => "a weekday is mon, tue, wed, thu, fri, sat, sun or *",
        _ => pattern_words(fault),
    }
}

fn range_words(fault: EntryFault, is_a_date_in_form: bool) -> &'static str {
    match fault {
        EntryFault::Year => "a year has four digits, 1900 to 2154",
        EntryFault::Month => "a month has two digits, 01 to 12",
        EntryFault::Day if is_a_date_in_form => "the calendar has no such day",
        EntryFault::Day => "a day has two digits, 01 to 31",
        EntryFault::HalfSpecified => "year, month and day are each a number; * stands alone",
        _ => "a date is YYYY-MM-DD, or * stands in its place",
    }
}
