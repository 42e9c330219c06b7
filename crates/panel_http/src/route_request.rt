//! The request to a route, with its body.

ghost use Rattle.std.specs.Prelude.{◌≡◌, IfOk, Option, option_map};
ghost use Rattle.delivery_json.specs.LineFault.{Tells};
ghost use Rattle.panel_http.specs.Requests.{IsDay, IsRequestTo, or_refused};
ghost use Rattle.panel_http.specs.Routes.{route_value};
ghost use Rattle.panel_http.specs.declared.request.Request.{Request as a_request};

use crate::bodies::{command_body, import_body, skip_body, tick_body};
use crate::panel_bodies::named;
use crate::refusal::Refusal;
use crate::request::Request;
use crate::route::Route;
use crate::view::View;
use building::Building;
use dates::Day;
use delivery_json::LineFault;
use std::alloc::{AllocError, Global};

/// The request to a route with its body, for the building.
pub(crate) fn request_to(
    alloc: Global,
    building: &Building,
    route: &Route<'_>,
    body: &[u8],
) -> Result<Request, AllocError>
    ensures { IfOk result (IsRequestTo building.now (route_value route.now) body.now) }
{
    match route {
        Route::Commands { panel } => or_refused(command_body(alloc, *panel, body)),
        Route::Skip { panel } => or_refused(skip_body(alloc, *panel, body)),
        Route::Tick => or_refused(tick_body(alloc, body)),
        Route::Imports => or_refused(import_body(alloc, building, body)),
        Route::Point { point } => Ok(Request::Point(named(*point))),
        Route::Report { date } => Ok(Request::Report(day_of(*date))),
        Route::Points => Ok(Request::View(View::Points)),
        Route::Why { point } => Ok(Request::View(View::Why(named(*point)))),
        Route::Panel { panel } => Ok(Request::View(View::Panel(named(*panel)))),
        Route::Record => Ok(Request::View(View::Record)),
        Route::Metrics => Ok(Request::View(View::Metrics)),
    }
}

/// What a body says, or its refusal (H6) where it is not what the route takes.
fn or_refused(said: Result<Request, LineFault>) -> Result<Request, AllocError>
    ensures { (meant : Option a_request) → Tells meant said → IfOk result (λ request. request ≡ or_refused meant) }
{
    match said {
        Ok(request) => Ok(request),
        Err(LineFault::NotDelivery) => Ok(Request::Refused(Refusal::NotDelivery)),
        Err(LineFault::NotDone(_)) => Err(AllocError),
    }
}

/// The day that a segment of the target spells.
fn day_of(segment: Option<&str>) -> Option<Day>
    ensures { IsDay (option_map (λ s. s.now) segment.entry) result }
{
    match segment {
        Some(text) => Day::read(text),
        None => None,
    }
}
