//! Whether the bytes of an input that have come are a whole request.

ghost use Rattle.std.specs.Prelude.{◌≡◌};
ghost use Rattle.building.specs.Building.{Building as a_building};
ghost use Rattle.httparse.specs.Grammar.{RequestHead};
ghost use Rattle.httparse.specs.Spans.{IsRequestAt, IsRequestWithin};
ghost use Rattle.panel_http.specs.AskedRoute.{route_asked};
ghost use Rattle.panel_http.specs.Whole.{Lacks, lacks_of};

use crate::asked_route::route_asked;
use crate::beginning::may_begin;
use crate::limits::{MOST_FIELDS, MOST_HEAD_BYTES};
use crate::routes::Routes;
use httparse::Status;
use httparse::spans::{EMPTY_HEADER_SPAN, HeaderSpan, RequestSpans, parse_request};
use std::alloc::Global;

/// How many bytes of the input are waited for at least, beside those that have come: 0 exactly where these ask the same
/// whatever follows them, and else no more than any that make them whole.
pub fn lacking(alloc: Global, routes: &Routes, come: &[u8]) -> usize
    ensures { (building : a_building) → Lacks building come.now result }
{
    if come.is_empty() {
        return 1;
    }
    let mut headers = [EMPTY_HEADER_SPAN; MOST_FIELDS];
    let front = &come[..come.len().min(MOST_HEAD_BYTES)];
    match parse_request(front, &mut headers) {
        Err(_) => 0,
        Ok(Status::Partial) if front.len() == MOST_HEAD_BYTES => 0,
        Ok(Status::Partial) if may_begin(front) => 1,
        Ok(Status::Partial) => 0,
        Ok(Status::Complete(spans)) => {
            let after = come.len() - spans.len;
            body_lacking(alloc, routes, front, &headers, &spans, after)
        }
    }
}

/// How many bytes a body lacks, of which so many have come; 0 where its head is refused.
fn body_lacking(
    alloc: Global,
    routes: &Routes,
    front: &[u8],
    headers: &[HeaderSpan],
    spans: &RequestSpans,
    after: usize,
) -> usize
    requires { IsRequestWithin front.now headers.now spans.now }
    ensures { (head : RequestHead) → IsRequestAt front.now headers.now spans.now head
        → result ≡ lacks_of (route_asked head) after }
{
    match route_asked(alloc, routes, front, headers, spans) {
        Ok(asked) => (asked.length as usize).saturating_sub(after),
        Err(_refusal) => 0,
    }
}
