//! The JSON object of a building.

ghost use Rattle.std.specs.Prelude.{◌≡◌, ◌++◌, IfOk, codes, option_map, string_bytes};
ghost use Rattle.serde_json.specs.View.{view};
ghost use Rattle.serde_json.specs.Written.{compact_text};
ghost use Rattle.building.specs.Building.{contents_of};
ghost use Rattle.desk_cli.specs.Description.{description, description_line, zone_data};

use crate::json_value::array_of;
use building::Building;
use serde_json::{Value, json};
use std::alloc::{AllocError, Global};

/// A building with the text of its time zone as one JSON object, compact, its keys in byte order, and the line end
/// (LF). Where there is no text, the zone is null. The only error is a failed allocation.
pub fn description_line(
    alloc: Global,
    zone: Option<&str>,
    building: &Building,
) -> Result<String, AllocError>
    ensures { IfOk result (λ line. string_bytes line
        ≡ description_line (option_map (λ s. s.now) zone.entry) (contents_of building.now)) }
{
    let mut line = description_of(alloc, zone, building)?.to_string(alloc)?;
    line.push_str("\n")?;
    Ok(line)
}

/// The object of a building.
#[tactic(auto, unfolding(crate::specs::Description::description))]
fn description_of(
    alloc: Global,
    zone: Option<&str>,
    building: &Building,
) -> Result<Value, AllocError>
    ensures { IfOk result (λ value. view value
        ≡ description (option_map (λ s. s.now) zone.entry) (contents_of building.now)) }
{
    let zone = zone_value(alloc, zone)?;
    let points = array_of(alloc, building.points())?;
    let panels = array_of(alloc, building.panels())?;
    let calendars = array_of(alloc, building.calendars())?;
    let schedules = array_of(alloc, building.schedules())?;
    json!(in alloc; {
        "zone": zone,
        "points": points,
        "panels": panels,
        "calendars": calendars,
        "schedules": schedules
    })
}

/// The text of a zone, or null.
fn zone_value(alloc: Global, zone: Option<&str>) -> Result<Value, AllocError>
    ensures { IfOk result (λ value. view value ≡ zone_data (option_map (λ s. s.now) zone.entry)) }
{
    match zone {
        Some(text) => json!(in alloc; text),
        None => Ok(Value::Null),
    }
}
