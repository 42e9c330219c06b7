//! What a whole input asks.

ghost use Rattle.std.specs.Prelude.{IfOk};
ghost use Rattle.httparse.specs.Grammar.{RequestHead};
ghost use Rattle.httparse.specs.Spans.{IsRequestAt, IsRequestWithin};
ghost use Rattle.panel_http.specs.AskedRoute.{route_asked, shown};
ghost use Rattle.panel_http.specs.Requests.{IsAsked, IsAskedBy, IsRequest};

use crate::asked_route::{AskedRoute, route_asked};
use crate::limits::{MOST_FIELDS, MOST_HEAD_BYTES};
use crate::refusal::Refusal;
use crate::request::Request;
use crate::route_request::request_to;
use crate::routes::Routes;
use building::Building;
use httparse::Status;
use httparse::spans::{EMPTY_HEADER_SPAN, HeaderSpan, RequestSpans, parse_request};
use std::alloc::{AllocError, Global};

/// What an input that has come whole asks of the desk of a building. Its parts are looked at where they lie: neither the
/// head nor the body is copied. The routes are lent, since their table costs more to make than a request to read. Where
/// memory is refused, it says no more than that.
pub fn request_in(
    alloc: Global,
    routes: &Routes,
    building: &Building,
    input: &[u8],
) -> Result<Request, AllocError>
    ensures { IfOk result (IsRequest building.now input.now) }
{
    let mut headers = [EMPTY_HEADER_SPAN; MOST_FIELDS];
    let front = &input[..input.len().min(MOST_HEAD_BYTES)];
    match parse_request(front, &mut headers) {
        Ok(Status::Complete(spans)) => {
            let after = &input[spans.len..];
            asked_after(alloc, routes, building, front, &headers, &spans, after)
        }
        Ok(Status::Partial) => Ok(Request::Refused(Refusal::NoHead)),
        Err(_) => Ok(Request::Refused(Refusal::NoHead)),
    }
}

/// What a head at the front of an input asks, of which the spans say the parts, with what comes after it.
fn asked_after(
    alloc: Global,
    routes: &Routes,
    building: &Building,
    front: &[u8],
    headers: &[HeaderSpan],
    spans: &RequestSpans,
    after: &[u8],
) -> Result<Request, AllocError>
    requires { IsRequestWithin front.now headers.now spans.now }
    ensures { (head : RequestHead) → IsRequestAt front.now headers.now spans.now head
        → IfOk result (IsAskedBy building.now (route_asked head) after.now) }
{
    match route_asked(alloc, routes, front, headers, spans) {
        Ok(asked) => asked_of(alloc, building, &asked, after),
        Err(refusal) => Ok(Request::Refused(refusal)),
    }
}

/// What a route asks with the body that stands at the front of what comes after its head.
fn asked_of(
    alloc: Global,
    building: &Building,
    asked: &AskedRoute<'_>,
    after: &[u8],
) -> Result<Request, AllocError>
    ensures { IfOk result (IsAsked building.now (shown asked.now) after.now) }
{
    match after.get(..asked.length as usize) {
        Some(body) => request_to(alloc, building, &asked.route, body),
        None => Ok(Request::Refused(Refusal::CutBody)),
    }
}
