//! The tick or the import in an object.

ghost use Rattle.std.specs.Prelude.{◌≡◌, option_map, Some};
ghost use Rattle.serde_json.specs.Find.{get};
ghost use Rattle.serde_json.specs.View.{view};
ghost use Rattle.delivery_json.specs.ClockLine.{import_in, import_of, list_in, tick_in};
ghost use Rattle.delivery_json.specs.LineFault.{Tells};

use crate::members::{has_only, lone_integer};
use crate::{LineFault, ParsedLine};
use building::Building;
use building_holidays::{ImportRefusal, read_holidays};
use deliveries::Delivery;
use points::Listing;
use serde_json::Value;
use std::alloc::Global;
use store::StoreFault;

/// The tick in an object.
#[tactic(auto, unfolding(crate::specs::ClockLine::tick_in))]
pub(crate) fn tick_in(value: &Value) -> Option<Delivery>
    ensures { result ≡ tick_in (view value.now) }
{
    let at = lone_integer(value, "tick")?;
    Some(Delivery::Tick { at })
}

/// The text of the holiday list in an object.
#[tactic(auto, unfolding(crate::specs::ClockLine::list_in))]
fn list_in(value: &Value) -> Option<&str>
    ensures { option_map (λ text. text.now) result ≡ list_in (view value.now) }
{
    let members = value.as_object()?;
    let text = value.get("import")?.as_str()?;
    if has_only(members, &["import"]) {
        Some(text)
    } else {
        None
    }
}

/// What an object with a holiday list says.
#[tactic(auto, unfolding(crate::specs::ClockLine::import_in))]
pub(crate) fn import_in(
    alloc: Global,
    building: &Building,
    value: &Value,
) -> Result<ParsedLine, LineFault>
    ensures { Tells (import_in building.now (view value.now)) result }
{
    match list_in(value) {
        Some(text) => import_of(alloc, building, text.as_bytes()),
        None => Err(LineFault::NotDelivery),
    }
}

/// The import of a holiday list for the building, or the fault of the list.
#[tactic(auto, unfolding(crate::specs::ClockLine::import_of))]
pub fn import_of(alloc: Global, building: &Building, list: &[u8]) -> Result<ParsedLine, LineFault>
    ensures { Tells (Some (import_of building.now list.now)) result }
{
    match read_holidays(alloc, building, list) {
        Ok(rows) => Ok(ParsedLine::Delivery(Delivery::Import {
            rows: Listing::from_vec(rows),
        })),
        Err(ImportRefusal::Fault(fault)) => Ok(ParsedLine::RefusedImport(fault)),
        Err(ImportRefusal::NoMemory) => Err(LineFault::NotDone(StoreFault::NoMemory)),
    }
}
