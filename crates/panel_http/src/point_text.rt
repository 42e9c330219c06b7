//! The responses to who asks for a point.

ghost use Rattle.std.specs.Prelude.{◌≡◌, ◌++◌, IfOk, OnOk, codes, string_bytes};
ghost use Rattle.std.specs.FinMap.{get};
ghost use Rattle.std.specs.List.{flat_map, range_with_len};
ghost use Rattle.panel_http.specs.Response.{Says};
ghost use Rattle.panel_http.specs.Responses.{no_point_said, place_text, places_text, point_body, point_said};

use crate::whole_response::{ContentType, Response, respond};
use http::StatusCode;
use itoa::Buffer;
use points::{LOWEST_PRIORITY, Name, PriorityArray};
use std::alloc::{AllocError, Global};
use std::fmt::Write;

/// Room for nearly every body, in bytes.
const BODY_ROOM: usize = 256;

/// The response with a point: its places, its present value, and the priority of the place that gives it.
pub fn point_response(
    alloc: Global,
    name: &Name,
    places: &PriorityArray,
    present: i64,
    priority: u8,
) -> Result<Response, AllocError>
    ensures { IfOk result (Says (point_said name.now places.now present priority)) }
{
    let body = point_body(alloc, name, places, present, priority)?;
    respond(alloc, StatusCode::OK, ContentType::Json, body.as_str())
}

/// The response where the building has no point of that name.
pub fn no_point_response(alloc: Global) -> Result<Response, AllocError>
    ensures { IfOk result (Says no_point_said) }
{
    respond(
        alloc,
        StatusCode::NOT_FOUND,
        ContentType::Json,
        "{\"answer\":\"no_point\"}",
    )
}

fn point_body(
    alloc: Global,
    name: &Name,
    places: &PriorityArray,
    present: i64,
    priority: u8,
) -> Result<String, AllocError>
    ensures { IfOk result (λ body. string_bytes body ≡ point_body name.now places.now present priority) }
{
    let mut body = String::with_capacity(alloc, BODY_ROOM)?;
    body.push_str("{\"answer\":\"point\",\"places\":[")?;
    push_places(&mut body, places)?;
    write!(
        body,
        "],\"point\":\"{name}\",\"present\":{present},\"priority\":{priority}}}"
    )?;
    Ok(body)
}

/// Writes the values of the sixteen places, divided by commas.
fn push_places(text: &mut String, places: &PriorityArray) -> Result<(), AllocError>
    ensures { OnOk result (string_bytes text.new ≡ string_bytes text.old ++ places_text places.now) }
{
    push_place(text, places.value_at(1))?;
    push_others(text, places)
}

/// Writes the values of the places after the first, each behind a comma.
fn push_others(text: &mut String, places: &PriorityArray) -> Result<(), AllocError>
    ensures { OnOk result (string_bytes text.new ≡ string_bytes text.old
        ++ flat_map (λ priority. codes "," ++ place_text (get places.now priority)) (range_with_len 2 15)) }
{
    for priority in 2..LOWEST_PRIORITY + 1 {
        text.push_str(",")?;
        push_place(text, places.value_at(priority))?;
    }
    Ok(())
}

/// Writes the value of a place, or null.
fn push_place(text: &mut String, value: Option<i64>) -> Result<(), AllocError>
    ensures { OnOk result (string_bytes text.new ≡ string_bytes text.old ++ place_text value) }
{
    match value {
        Some(value) => text.push_str(Buffer::new().format(value)),
        None => text.push_str("null"),
    }
}
