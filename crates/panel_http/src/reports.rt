//! The responses to who asks for a report.

ghost use Rattle.std.specs.Prelude.{IfOk};
ghost use Rattle.panel_http.specs.Response.{Says};
ghost use Rattle.panel_http.specs.Responses.{no_day_said, report_said};

use crate::whole_response::{ContentType, Response, respond};
use http::StatusCode;
use std::alloc::{AllocError, Global};

/// The response that is a report.
pub fn report_response(alloc: Global, report: &str) -> Result<Response, AllocError>
    ensures { IfOk result (Says (report_said report.now)) }
{
    respond(alloc, StatusCode::OK, ContentType::PlainText, report)
}

/// The response where no day is asked.
pub fn no_day_response(alloc: Global) -> Result<Response, AllocError>
    ensures { IfOk result (Says no_day_said) }
{
    respond(
        alloc,
        StatusCode::NOT_FOUND,
        ContentType::Json,
        "{\"answer\":\"no_day\"}",
    )
}
