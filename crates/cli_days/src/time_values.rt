//! The time values of a list, as they count.
ghost use Rattle.std.specs.Prelude.{◌≡◌, ◌++◌, ◌<◌, IfOk, OnOk, string_bytes};
ghost use Rattle.std.specs.List.{All, flat_map};
ghost use Rattle.sched.specs.DayList.{times_of};
ghost use Rattle.cli_days.specs.TimeValues.{has_value, named_times, text_at, time_value_text};

use sched::{DayList, Time, TimeValue};
use std::alloc::{AllocError, Global};
use std::fmt::Write;

// The times of time values, each that of a day.
fn times_of(alloc: Global, time_values: &[TimeValue]) -> Result<Vec<Time>, AllocError>
    ensures times { IfOk result (λ times. times.items ≡ times_of time_values.now) }
    ensures of_a_day { IfOk result (λ times. All (λ time. time < 8_640_000) times.items) }
{
    let mut times = Vec::new(alloc);
    for time_value in time_values {
        prove!(time_value.time.hundredths() < 8_640_000);
        times.push(time_value.time)?;
    }
    Ok(times)
}

/// The times that a list names, each once and in order.
pub fn named_times(alloc: Global, list: &DayList) -> Result<Vec<Time>, AllocError>
    ensures { IfOk result (λ times. times.items ≡ named_times list.now) }
{
    let mut times = times_of(alloc, list.as_slice())?;
    times.sort()?;
    times.dedup();
    Ok(times)
}

/// Whether the value of a list is not NULL at one of these times.
pub fn has_value(list: &DayList, times: &[Time]) -> bool
    ensures { result ≡ has_value list.now times.now }
{
    times.iter().any(|time| list.value_at(*time).is_some())
}

#[tactic(auto, unfolding(crate::specs::TimeValues::time_value_text))]
fn push_time_value(text: &mut String, time: Time, value: Option<i64>) -> Result<(), AllocError>
    ensures { OnOk result (string_bytes text.new ≡ string_bytes text.old ++ time_value_text time value) }
{
    match value {
        Some(value) => write!(text, " {time}={value}"),
        None => write!(text, " {time}=NULL"),
    }
}

/// Writes each of these times with the value that the list has from there on.
pub fn push_time_values(text: &mut String, list: &DayList, times: &[Time]) -> Result<(), AllocError>
    ensures { OnOk result (string_bytes text.new ≡ string_bytes text.old ++ flat_map (text_at list.now) times.now) }
{
    for time in times {
        push_time_value(text, *time, list.value_at(*time))?;
    }
    Ok(())
}
