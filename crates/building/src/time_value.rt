//! Time values in the notation of building files.

ghost use Rattle.std.specs.Prelude.{◌≡◌, ◌<◌, IfSome, option_map, pos};
ghost use Rattle.std.specs.Char.{is_ascii_digit};
ghost use Rattle.std.specs.List.{list_all};
ghost use Rattle.building.specs.TimeValue.{after_mark, cut_at_equals, digit_at, hundredths_at, is_number};
ghost use Rattle.building.specs.TimeValue.{leading_below, number_at, seconds_at, signed_at, time_at};
ghost use Rattle.building.specs.TimeValue.{time_value_at, value_at};

use sched::{Time, TimeValue};

/// The digits that a value has at most.
const MOST_DIGITS: usize = 11;

/// Reads a time value `T=V`. T is `HH:MM`, `HH:MM:SS` or `HH:MM:SS.hh`, from 00:00 to 23:59:59.99; V is
/// `NULL`, or 1 to 11 digits after an optional `-`. It takes no memory.
pub fn read_time_value(text: &str) -> Option<TimeValue>
    ensures { result ≡ time_value_at text.now }
{
    let (time, value) = cut_at_equals(text)?;
    Some(TimeValue {
        time: read_time(time)?,
        value: value_at(value)?,
    })
}

/// Reads a time of day, `HH:MM`, `HH:MM:SS` or `HH:MM:SS.hh`, from 00:00 to 23:59:59.99. It takes no memory.
pub fn read_time(text: &str) -> Option<Time>
    ensures { result ≡ time_at text.now }
{
    time_at(text.as_bytes())
}

/// The text before the first `=`, and the text after it.
fn cut_at_equals(text: &str) -> Option<(&str, &str)>
    ensures { option_map (λ cut. (cut.0.now, cut.1.now)) result ≡ cut_at_equals text.now }
{
    text.split_once('=')
}

/// The time of day that a text writes.
fn time_at(text: &[u8]) -> Option<Time>
    ensures { result ≡ time_at text.now }
{
    let (hours, rest) = leading_below(24, text)?;
    let (minutes, rest) = leading_below(60, after_mark(b':', rest)?)?;
    Time::new(360_000 * hours + 6_000 * minutes + seconds_at(rest)?)
}

/// The hundredths that `:SS` or `:SS.hh` writes, or none where nothing is written.
fn seconds_at(text: &[u8]) -> Option<u32>
    ensures value { result ≡ seconds_at text.now }
    ensures bound { IfSome result (λ n. n < 6_000) }
{
    if text.is_empty() {
        return Some(0);
    }
    let (seconds, rest) = leading_below(60, after_mark(b':', text)?)?;
    Some(100 * seconds + hundredths_at(rest)?)
}

/// The hundredths that `.hh` writes, or none where nothing is written.
fn hundredths_at(text: &[u8]) -> Option<u32>
    ensures value { result ≡ hundredths_at text.now }
    ensures bound { IfSome result (λ n. n < 100) }
{
    if text.is_empty() {
        return Some(0);
    }
    match leading_below(100, after_mark(b'.', text)?)? {
        (hundredths, []) => Some(hundredths),
        _ => None,
    }
}

/// The number of the two digits that a text begins with, where it is below a limit, and the rest.
fn leading_below(limit: u32, text: &[u8]) -> Option<(u32, &[u8])>
    ensures value { option_map (λ cut. (cut.0, cut.1.now)) result ≡ leading_below limit text.now }
    ensures bound { IfSome result (λ cut. cut.0 < limit) }
{
    let [tens, units, rest @ ..] = text else {
        return None;
    };
    let number = 10 * digit(*tens)? + digit(*units)?;
    if number < limit {
        Some((number, rest))
    } else {
        None
    }
}

/// The text after the mark that it begins with.
fn after_mark(mark: u8, text: &[u8]) -> Option<&[u8]>
    ensures { option_map (λ rest. rest.now) result ≡ after_mark mark text.now }
{
    match text {
        [first, rest @ ..] if *first == mark => Some(rest),
        _ => None,
    }
}

/// The value of an ASCII digit, 0 to 9.
pub fn digit(byte: u8) -> Option<u32>
    ensures value { result ≡ digit_at byte }
    ensures bound { IfSome result (λ n. n < 10) }
{
    match byte {
        b'0'..=b'9' => Some(u32::from(byte - b'0')),
        _ => None,
    }
}

/// The value that a text writes, or NULL (`None` within).
pub fn value_at(text: &str) -> Option<Option<i64>>
    ensures { result ≡ value_at text.now }
{
    match text {
        "NULL" => Some(None),
        _ => Some(Some(signed_at(text)?)),
    }
}

fn signed_at(text: &str) -> Option<i64>
    ensures { result ≡ signed_at text.now }
{
    match text.strip_prefix('-') {
        Some(digits) => Some(-number_at(digits)?),
        None => number_at(text),
    }
}

fn number_at(text: &str) -> Option<i64>
    ensures value { result ≡ option_map pos (number_at text.now) }
{
    if is_number(text) {
        text.parse::<i64>().ok()
    } else {
        None
    }
}

fn is_number(text: &str) -> bool
    ensures { result ≡ is_number text.now }
{
    0 < text.len() && text.len() <= MOST_DIGITS && has_digits_alone(text)
}

fn has_digits_alone(text: &str) -> bool
    ensures { result ≡ list_all is_ascii_digit text.now }
{
    text.as_bytes().iter().all(|byte| byte.is_ascii_digit())
}
