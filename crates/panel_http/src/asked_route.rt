//! The route that a head asks, with the length of its body.

ghost use Rattle.std.specs.Prelude.{◌≡◌, IfSome, IsUtf8, option_map};
ghost use Rattle.points.specs.FaultSteps.{result_map};
ghost use Rattle.httparse.specs.Grammar.{RequestHead};
ghost use Rattle.httparse.specs.Spans.{IsRequestAt, IsRequestWithin};
ghost use Rattle.panel_http.specs.Routes.{limit_of, route_value, route_of};
ghost use Rattle.panel_http.specs.AskedRoute.{of_length, route_asked, shown, with_limit};

use crate::content_length::body_length;
use crate::refusal::Refusal;
use crate::route::{FoundRoute, Route};
use crate::routes::Routes;
use http::Method;
use httparse::spans::{HeaderSpan, RequestSpans};
use points::text_of;
use std::alloc::Global;

/// What a head asks.
#[derive(Clone, Copy)]
pub(crate) struct AskedRoute<'a> {
    pub(crate) route: Route<'a>,
    /// The number of bytes of the body: 0 for a route of GET, past whose head nothing is looked at.
    pub(crate) length: u32,
}

/// What a head at the buffer's front asks, of which the spans say the parts. It is refused where its fields say no
/// plain length (H2), where no route has its method and target, and where the body is longer than the route takes (H4),
/// the first of these first.
pub(crate) fn route_asked<'a>(
    alloc: Global,
    routes: &Routes,
    buffer: &'a [u8],
    headers: &[HeaderSpan],
    spans: &RequestSpans,
) -> Result<AskedRoute<'a>, Refusal>
    requires { IsRequestWithin buffer.now headers.now spans.now }
    ensures { (head : RequestHead) → IsRequestAt buffer.now headers.now spans.now head
        → result_map shown result ≡ route_asked head }
{
    let length = body_length(buffer, &headers[..spans.headers]);
    asked_by(
        alloc,
        routes,
        spans.method.of(buffer),
        spans.path.of(buffer),
        length,
    )
}

/// What a method and a target ask, with the length of the body if the fields say one.
fn asked_by<'a>(
    alloc: Global,
    routes: &Routes,
    method: &[u8],
    target: &'a [u8],
    length: Option<u32>,
) -> Result<AskedRoute<'a>, Refusal>
    ensures { IsUtf8 target.now
        → result_map shown result ≡ of_length length (route_of method.now target.now) }
{
    let length = length.ok_or(Refusal::UnclearLength)?;
    let target = text_of(target).ok_or(Refusal::NoRoute)?;
    let found = route_of(alloc, routes, method, target).ok_or(Refusal::NoRoute)?;
    within_limit(found, length)
}

/// The route that a method's token and a target ask. A token of which no `Method` can be made has none: only one that
/// is longer than any method of the table takes memory.
fn route_of<'a>(
    alloc: Global,
    routes: &Routes,
    method: &[u8],
    target: &'a str,
) -> Option<FoundRoute<'a>>
    ensures route { option_map (λ found. route_value found.route) result ≡ route_of method.now target.now }
    ensures limit { IfSome result (λ found. found.limit ≡ limit_of (route_value found.route)) }
{
    let method = Method::from_bytes(alloc, method).ok()?;
    routes.find(&method, target)
}

/// A route that is found, with a body of this length, if its limit allows it.
fn within_limit(found: FoundRoute<'_>, length: u32) -> Result<AskedRoute<'_>, Refusal>
    ensures { result_map shown result ≡ with_limit found.entry.limit (route_value found.entry.route) length }
{
    let FoundRoute { route, limit } = found;
    match limit {
        None => Ok(AskedRoute { route, length: 0 }),
        Some(limit) if length <= limit => Ok(AskedRoute { route, length }),
        Some(_) => Err(Refusal::TooLong),
    }
}
