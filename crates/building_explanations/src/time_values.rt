//! What is wrong with a text that is no time value.
ghost use Rattle.std.specs.Prelude.{◌≡◌, is_some, option_map};
ghost use Rattle.std.specs.Result.{is_ok, result_ok};
ghost use Rattle.building.specs.TimeValue.{cut_at_equals, hundredths_at, seconds_at, time_at, time_value_at, value_at};
ghost use Rattle.building_explanations.specs.TimeValues.{after_marked, after_number};

use building::{digit, value_at};
use std::fmt;

/// The first part of a text that makes it no time value.
#[derive(Clone, Copy)]
pub(crate) enum TimeValueFault {
    NoEqualsSign,
    Hours,
    Minutes,
    Seconds,
    Hundredths,
    Value,
}

impl fmt::Display for TimeValueFault {
    fn fmt<W: fmt::Write>(&self, f: &mut fmt::Formatter<W>) -> fmt::Result {
        f.write_str(match self {
            TimeValueFault::NoEqualsSign => {
                "a time value has = between its time and its value, as 08:00=2100"
            }
            TimeValueFault::Hours => "the hours have two digits, 00 to 23",
            TimeValueFault::Minutes => "the minutes follow a colon and have two digits, 00 to 59",
            TimeValueFault::Seconds => {
                "the seconds, if any, follow a colon and have two digits, 00 to 59"
            }
            TimeValueFault::Hundredths => {
                "the hundredths, if any, follow a point and have two digits, before the ="
            }
            TimeValueFault::Value => {
                "the value is NULL, or has 1 to 11 digits after an optional -"
            }
        })
    }
}

/// The value of a time value `T=V`, or what is wrong with it first. It takes no memory.
pub(crate) fn value_of(text: &str) -> Result<Option<i64>, TimeValueFault>
    ensures { result_ok result ≡ option_map (λ read. read.value) (time_value_at text.now) }
{
    let (time, value) = cut_at_equals(text).ok_or(TimeValueFault::NoEqualsSign)?;
    check_time(time.as_bytes())?;
    value_at(value).ok_or(TimeValueFault::Value)
}

/// The text before the first `=`, and the text after it.
fn cut_at_equals(text: &str) -> Option<(&str, &str)>
    ensures { option_map (λ cut. (cut.0.now, cut.1.now)) result ≡ cut_at_equals text.now }
{
    text.split_once('=')
}

/// What is wrong with a time of day, if anything is.
fn check_time(text: &[u8]) -> Result<(), TimeValueFault>
    ensures { is_ok result ≡ is_some (time_at text.now) }
{
    let rest = after_number(24, text).ok_or(TimeValueFault::Hours)?;
    let rest = after_marked_number(b':', 60, rest).ok_or(TimeValueFault::Minutes)?;
    check_seconds(rest)
}

/// What is wrong with what follows the minutes: nothing, or `:SS` or `:SS.hh`.
fn check_seconds(text: &[u8]) -> Result<(), TimeValueFault>
    ensures { is_ok result ≡ is_some (seconds_at text.now) }
{
    if text.is_empty() {
        return Ok(());
    }
    let rest = after_marked_number(b':', 60, text).ok_or(TimeValueFault::Seconds)?;
    check_hundredths(rest)
}

/// What is wrong with what follows the seconds: nothing, or `.hh`.
fn check_hundredths(text: &[u8]) -> Result<(), TimeValueFault>
    ensures { is_ok result ≡ is_some (hundredths_at text.now) }
{
    if text.is_empty() {
        return Ok(());
    }
    match after_marked_number(b'.', 100, text) {
        Some([]) => Ok(()),
        _ => Err(TimeValueFault::Hundredths),
    }
}

/// The text after the mark and the number of two digits below a limit that it begins with.
fn after_marked_number(mark: u8, limit: u32, text: &[u8]) -> Option<&[u8]>
    ensures { option_map (λ rest. rest.now) result ≡ after_marked mark limit text.now }
{
    match text {
        [first, rest @ ..] if *first == mark => after_number(limit, rest),
        _ => None,
    }
}

/// The text after the number of two digits below a limit that it begins with.
fn after_number(limit: u32, text: &[u8]) -> Option<&[u8]>
    ensures { option_map (λ rest. rest.now) result ≡ after_number limit text.now }
{
    let [tens, units, rest @ ..] = text else {
        return None;
    };
    if 10 * digit(*tens)? + digit(*units)? < limit {
        Some(rest)
    } else {
        None
    }
}
