//! The body of a request, read by its route.

ghost use Rattle.std.specs.Prelude.{option_map, Some};
ghost use Rattle.delivery_json.specs.ClockLine.{import_of};
ghost use Rattle.delivery_json.specs.LineFault.{Tells};
ghost use Rattle.panel_http.specs.RequestBody.{command_body, of_import, skip_body, tick_body};

use crate::panel_bodies::{command_by, command_of, named, skip_of};
use crate::request::Request;
use building::Building;
use deliveries::Delivery;
use delivery_json::{LineFault, ParsedLine, import_of, lone_integer, value_of, written_body};
use std::alloc::Global;

/// The command in a body, by the panel that a segment of the target names. A body in the form in which the desk writes a
/// command itself is compared with that form, which costs a fraction of what reading its JSON does.
#[tactic(auto, unfolding(crate::specs::RequestBody::command_body))]
pub(crate) fn command_body(
    alloc: Global,
    panel: Option<&str>,
    body: &[u8],
) -> Result<Request, LineFault>
    ensures { Tells (command_body (option_map (λ s. s.now) panel.entry) body.now) result }
{
    if let Some(command) = written_body(body) {
        return Ok(command_by(named(panel), command));
    }
    let value = value_of(alloc, body)?;
    command_of(panel, &value).ok_or(LineFault::NotDelivery)
}

/// The skip in a body, by the panel that a segment of the target names.
#[tactic(auto, unfolding(crate::specs::RequestBody::skip_body))]
pub(crate) fn skip_body(
    alloc: Global,
    panel: Option<&str>,
    body: &[u8],
) -> Result<Request, LineFault>
    ensures { Tells (skip_body (option_map (λ s. s.now) panel.entry) body.now) result }
{
    let value = value_of(alloc, body)?;
    skip_of(panel, &value).ok_or(LineFault::NotDelivery)
}

/// The tick in a body.
#[tactic(auto, unfolding(crate::specs::RequestBody::tick_body))]
pub(crate) fn tick_body(alloc: Global, body: &[u8]) -> Result<Request, LineFault>
    ensures { Tells (tick_body body.now) result }
{
    let value = value_of(alloc, body)?;
    let at = lone_integer(&value, "at").ok_or(LineFault::NotDelivery)?;
    Ok(Request::Delivery(Delivery::Tick { at }))
}

/// The import of the holiday list that a body is.
pub(crate) fn import_body(
    alloc: Global,
    building: &Building,
    body: &[u8],
) -> Result<Request, LineFault>
    ensures { Tells (Some (of_import (import_of building.now body.now))) result }
{
    match import_of(alloc, building, body)? {
        ParsedLine::Delivery(delivery) => Ok(Request::Delivery(delivery)),
        ParsedLine::RefusedImport(fault) => Ok(Request::RefusedImport(fault)),
    }
}
