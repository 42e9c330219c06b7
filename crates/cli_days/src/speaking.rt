//! Which exceptions speak at some time of a day.
ghost use Rattle.std.specs.Prelude.{◌≡◌, [], ◌∷◌, ◌++◌, IfOk, OnOk, if◌then◌else◌};
ghost use Rattle.cli_days.specs.Speaking.{speaking, speaks_on};

use crate::time_values::{has_value, named_times};
use dates::Day;
use sched::{Calendar, Exception};
use std::alloc::{AllocError, Global};

fn speaks_on(
    alloc: Global,
    exception: &Exception,
    calendars: &[Calendar],
    day: Day,
) -> Result<bool, AllocError>
    ensures { IfOk result (λ speaks. speaks ≡ speaks_on calendars.now day exception.now) }
{
    if !exception.is_in_effect(calendars, day) {
        return Ok(false);
    }
    let times = named_times(alloc, &exception.times)?;
    Ok(has_value(&exception.times, times.as_slice()))
}

fn push_index(indices: &mut Vec<usize>, index: usize, speaks: bool) -> Result<(), AllocError>
    ensures { OnOk result (indices.new.items ≡ indices.old.items ++ (if speaks then index ∷ [] else [])) }
{
    if speaks {
        indices.push(index)?;
    }
    Ok(())
}

/// The indices of the exceptions that speak at some time of the day.
pub fn speaking(
    alloc: Global,
    exceptions: &[Exception],
    calendars: &[Calendar],
    day: Day,
) -> Result<Vec<usize>, AllocError>
    ensures { IfOk result (λ indices. indices.items ≡ speaking calendars.now day exceptions.now) }
{
    let mut indices = Vec::new(alloc);
    for (index, exception) in exceptions.iter().enumerate() {
        let speaks = speaks_on(alloc, exception, calendars, day)?;
        push_index(&mut indices, index, speaks)?;
    }
    Ok(indices)
}
