//! What a line of JSON says.

ghost use Rattle.std.specs.Prelude.{◌≡◌};
ghost use Rattle.serde_json.specs.Errors.{IsMemory};
ghost use Rattle.serde_json.specs.Find.{get};
ghost use Rattle.serde_json.specs.Read.{read};
ghost use Rattle.serde_json.specs.View.{view};
ghost use Rattle.delivery_json.specs.DeliveryLine.{delivery_in, json_of, parsed_in, parse_line};
ghost use Rattle.points.specs.FaultSteps.{result_map};
ghost use Rattle.delivery_json.specs.LineFault.{Tells};
ghost use Rattle.store.specs.declared.StoreFault.{StoreFault as a_fault};
ghost use Rattle.store.specs.declared.StoreFault.TheVariants.{NoMemory};

use crate::clock_line::{import_in, tick_in};
use crate::panel_line::panel_delivery_in;
use crate::usual_line::usual_delivery;
use crate::{LineFault, ParsedLine};
use building::Building;
use deliveries::Delivery;
use json::Scratch;
use points::text_of;
use serde_json::Value;
use std::alloc::Global;
use store::StoreFault;

/// What a line says, without its line end; an import is one of entries for calendars of the building. A line of a usual
/// form is read in one pass, which memory may be refused for too: then the line is read as any other. One `scratch` is
/// lent to each line: it is the memory that the pass needs, and to make it costs more than a line.
#[tactic(auto, unfolding(crate::specs::DeliveryLine::parse_line))]
pub fn parse_line(
    alloc: Global,
    scratch: &mut Scratch,
    building: &Building,
    line: &[u8],
) -> Result<ParsedLine, LineFault>
    ensures { Tells (parse_line building.now line.now) result }
{
    if let Some(delivery) = usual_delivery(scratch, line) {
        return Ok(ParsedLine::Delivery(delivery));
    }
    let value = value_of(alloc, line)?;
    parsed_in(alloc, building, &value)
}

/// The value of a JSON text, as `serde_json` reads it.
pub fn value_of(alloc: Global, bytes: &[u8]) -> Result<Value, LineFault>
    ensures { Tells (json_of bytes.now) (result_map view result) }
{
    let text = text_of(bytes).ok_or(LineFault::NotDelivery)?;
    parsed(alloc, text)
}

fn parsed(alloc: Global, text: &str) -> Result<Value, LineFault>
    ensures { Tells (read text.now) (result_map view result) }
{
    Value::from_str(alloc, text).map_err(fault_of)
}

/// Why a text is no JSON.
fn fault_of(error: serde_json::Error) -> LineFault
    ensures refused { result ≡ LineFault.NotDelivery → ¬ IsMemory error }
    ensures memory { (fault : a_fault) → result ≡ LineFault.NotDone fault → fault ≡ NoMemory }
{
    if error.is_memory() {
        LineFault::NotDone(StoreFault::NoMemory)
    } else {
        LineFault::NotDelivery
    }
}

/// What an object says.
#[tactic(auto, unfolding(crate::specs::DeliveryLine::parsed_in))]
fn parsed_in(alloc: Global, building: &Building, value: &Value) -> Result<ParsedLine, LineFault>
    ensures { Tells (parsed_in building.now (view value.now)) result }
{
    match delivery_in(value) {
        Some(delivery) => Ok(ParsedLine::Delivery(delivery)),
        None => import_in(alloc, building, value),
    }
}

/// The delivery in an object without a holiday list.
#[tactic(auto, unfolding(crate::specs::DeliveryLine::delivery_in))]
fn delivery_in(value: &Value) -> Option<Delivery>
    ensures { result ≡ delivery_in (view value.now) }
{
    match value.get("panel") {
        Some(_) => panel_delivery_in(value),
        None => tick_in(value),
    }
}
