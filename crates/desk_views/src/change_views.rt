//! The next changes of the schedules that target a point.
ghost use Rattle.std.specs.Prelude.{◌≡◌, ◌++◌, IfOk, OnOk, map, string_bytes};
ghost use Rattle.desk_views.specs.Views.{change_view, divided};

use crate::numbers::number_text;
use building::Building;
use desk_why::{ScheduledChange, source_text};
use std::alloc::{AllocError, Global};
use std::fmt::Write;

// Writes a change: when it comes, by what, of which schedule, and the value from then on.
fn push_change(
    alloc: Global,
    text: &mut String,
    building: &Building,
    next: &ScheduledChange,
) -> Result<(), AllocError>
    ensures { OnOk result (string_bytes text.new ≡ string_bytes text.old ++ change_view building.now next.now) }
{
    let by = source_text(alloc, building, &next.change.source)?;
    let value = number_text(alloc, next.change.value)?;
    let at = next.change.time;
    let schedule = next.schedule.as_str();
    write!(
        text,
        "{{\"at\":\"{at}\",\"by\":\"{by}\",\"schedule\":\"{schedule}\",\"value\":{value}}}"
    )
}

/// Changes, in the order given, divided by commas.
pub fn changes_view(
    alloc: Global,
    building: &Building,
    changes: &[ScheduledChange],
) -> Result<String, AllocError>
    ensures { IfOk result (λ text. string_bytes text ≡ divided (map (change_view building.now) changes.now)) }
{
    let mut text = String::new(alloc);
    let mut comma = "";
    for change in changes {
        text.push_str(comma)?;
        push_change(alloc, &mut text, building, change)?;
        comma = ",";
    }
    Ok(text)
}
