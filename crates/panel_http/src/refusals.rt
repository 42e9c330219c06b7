//! The response to a request that is refused.

ghost use Rattle.std.specs.Prelude.{◌≡◌, IfOk};
ghost use Rattle.panel_http.specs.Response.{Says};
ghost use Rattle.panel_http.specs.Responses.{refusal_said};

use crate::refusal::Refusal;
use crate::whole_response::{ContentType, Response, respond};
use http::StatusCode;
use std::alloc::{AllocError, Global};

/// The response to a request that is refused: 404 where no route has its method and target, else 400.
pub fn refusal_response(alloc: Global, refusal: Refusal) -> Result<Response, AllocError>
    ensures { IfOk result (Says (refusal_said refusal)) }
{
    respond(
        alloc,
        status_of(refusal),
        ContentType::Json,
        body_of(refusal),
    )
}

fn status_of(refusal: Refusal) -> StatusCode
    ensures { result ≡ (refusal_said refusal).status }
{
    match refusal {
        Refusal::NoRoute => StatusCode::NOT_FOUND,
        _ => StatusCode::BAD_REQUEST,
    }
}

fn body_of(refusal: Refusal) -> &'static str
    ensures { result.now ≡ (refusal_said refusal).body }
{
    match refusal {
        Refusal::NoHead => "{\"answer\":\"bad_request\",\"fault\":\"H1\"}",
        Refusal::UnclearLength => "{\"answer\":\"bad_request\",\"fault\":\"H2\"}",
        Refusal::NoRoute => "{\"answer\":\"no_route\"}",
        Refusal::TooLong => "{\"answer\":\"bad_request\",\"fault\":\"H4\"}",
        Refusal::CutBody => "{\"answer\":\"bad_request\",\"fault\":\"H5\"}",
        Refusal::NotDelivery => "{\"answer\":\"bad_request\",\"fault\":\"H6\"}",
    }
}
