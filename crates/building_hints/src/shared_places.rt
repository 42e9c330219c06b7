//! Hints at two schedules that write one place.
ghost use Rattle.std.specs.Prelude.{◌≡◌, ◌++◌, OnOk, string_bytes};
ghost use Rattle.std.specs.List.{flat_map};
ghost use Rattle.building_hints.specs.HintLines.{pair_hints, shared_hint, shared_hints};

use building::NamedSchedule;
use points::Name;
use std::alloc::AllocError;
use std::fmt::Write;

// Writes a hint where the later one writes the point too.
fn push_point(
    text: &mut String,
    earlier: &NamedSchedule,
    later: &NamedSchedule,
    point: &Name,
) -> Result<(), AllocError>
    ensures { OnOk result (string_bytes text.new ≡ string_bytes text.old ++ shared_hint earlier.now later.now point.now) }
{
    if later.targets.contains(point) {
        write!(
            text,
            "schedules {} and {}: both write {point} at {}\n",
            earlier.name, later.name, earlier.priority
        )?;
    }
    Ok(())
}

fn push_points(
    text: &mut String,
    earlier: &NamedSchedule,
    later: &NamedSchedule,
) -> Result<(), AllocError>
    ensures { OnOk result (string_bytes text.new
        ≡ string_bytes text.old ++ flat_map (shared_hint earlier.now later.now) earlier.now.targets) }
{
    for point in earlier.targets.as_slice() {
        push_point(text, earlier, later, point)?;
    }
    Ok(())
}

// Writes a hint at each point that both write at one priority.
fn push_pair(
    text: &mut String,
    earlier: &NamedSchedule,
    later: &NamedSchedule,
) -> Result<(), AllocError>
    ensures { OnOk result (string_bytes text.new ≡ string_bytes text.old ++ shared_hints earlier.now later.now) }
{
    if earlier.priority == later.priority {
        push_points(text, earlier, later)?;
    }
    Ok(())
}

fn push_beside(
    text: &mut String,
    earlier: &NamedSchedule,
    later: &[NamedSchedule],
) -> Result<(), AllocError>
    ensures { OnOk result (string_bytes text.new ≡ string_bytes text.old ++ flat_map (shared_hints earlier.now) later.now) }
{
    for schedule in later {
        push_pair(text, earlier, schedule)?;
    }
    Ok(())
}

/// Writes the hints at two schedules that write one point at one priority.
pub(crate) fn push_pairs(text: &mut String, schedules: &[NamedSchedule]) -> Result<(), AllocError>
    ensures { OnOk result (string_bytes text.new ≡ string_bytes text.old ++ pair_hints schedules.now) }
{
    for (index, schedule) in schedules.iter().enumerate() {
        push_beside(text, schedule, &schedules[index + 1..])?;
    }
    Ok(())
}
