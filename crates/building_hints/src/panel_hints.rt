//! Hints at panels.
ghost use Rattle.std.specs.Prelude.{◌≡◌, ◌++◌, OnOk, string_bytes};
ghost use Rattle.std.specs.List.{flat_map};
ghost use Rattle.building_hints.specs.HintLines.{no_point_hint, no_priority_hint, panel_hints};

use points::Panel;
use std::alloc::AllocError;
use std::fmt::Write;

fn push_no_point(text: &mut String, panel: &Panel) -> Result<(), AllocError>
    ensures { OnOk result (string_bytes text.new ≡ string_bytes text.old ++ no_point_hint panel.now.name panel.now.points) }
{
    if panel.points.as_slice().is_empty() {
        write!(text, "panel {}: no point\n", panel.name)?;
    }
    Ok(())
}

fn push_no_priority(text: &mut String, panel: &Panel) -> Result<(), AllocError>
    ensures { OnOk result (string_bytes text.new ≡ string_bytes text.old ++ no_priority_hint panel.now.name panel.now.priorities) }
{
    if panel.priorities.as_slice().is_empty() {
        write!(text, "panel {}: no priority\n", panel.name)?;
    }
    Ok(())
}

fn push_panel(text: &mut String, panel: &Panel) -> Result<(), AllocError>
    ensures { OnOk result (string_bytes text.new ≡ string_bytes text.old ++ panel_hints panel.now) }
{
    push_no_point(text, panel)?;
    push_no_priority(text, panel)
}

/// Writes the hints at panels: that one may write no point, or at no priority.
pub(crate) fn push_panels(text: &mut String, panels: &[Panel]) -> Result<(), AllocError>
    ensures { OnOk result (string_bytes text.new ≡ string_bytes text.old ++ flat_map panel_hints panels.now) }
{
    for panel in panels {
        push_panel(text, panel)?;
    }
    Ok(())
}
