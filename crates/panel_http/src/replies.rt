//! The responses to deliveries.

ghost use Rattle.std.specs.Prelude.{◌≡◌, IfOk};
ghost use Rattle.panel_http.specs.Response.{Says};
ghost use Rattle.panel_http.specs.Responses.{answer_status, import_refused_said, reply_said, reply_status};

use crate::whole_response::{ContentType, Response, respond};
use building_holidays::ImportFault;
use deliveries::Reply;
use delivery_json::{RefusedImportText, ReplyText};
use http::StatusCode;
use points::Answer;
use std::alloc::{AllocError, Global};
use std::fmt::Write;

/// Room for nearly every body, in bytes.
const BODY_ROOM: usize = 96;

/// The response to a delivery that was answered.
pub fn reply_response(alloc: Global, reply: Reply) -> Result<Response, AllocError>
    ensures { IfOk result (Says (reply_said reply)) }
{
    let mut body = String::with_capacity(alloc, BODY_ROOM)?;
    write!(body, "{}", ReplyText(reply))?;
    respond(alloc, reply_status(reply), ContentType::Json, body.as_str())
}

/// The response to an import whose holiday list is at fault.
pub fn import_refused_response(alloc: Global, fault: ImportFault) -> Result<Response, AllocError>
    ensures { IfOk result (Says (import_refused_said fault)) }
{
    let body = format!(in alloc; "{}", RefusedImportText(fault))?;
    respond(
        alloc,
        StatusCode::UNPROCESSABLE_ENTITY,
        ContentType::Json,
        body.as_str(),
    )
}

/// The status of a reply.
fn reply_status(reply: Reply) -> StatusCode
    ensures { result ≡ reply_status reply }
{
    match reply {
        Reply::Answered { answer, .. } => answer_status(answer),
        Reply::SkipDone { .. } | Reply::Ticked { .. } | Reply::Old | Reply::Imported { .. } => {
            StatusCode::OK
        }
        Reply::Parked { .. } => StatusCode::ACCEPTED,
        Reply::BadNumber | Reply::BadMoment => StatusCode::BAD_REQUEST,
        Reply::NoPanel => StatusCode::NOT_FOUND,
        Reply::Differs { .. } | Reply::TooFar { .. } => StatusCode::CONFLICT,
        Reply::Skipped { .. } | Reply::Forgotten { .. } => StatusCode::GONE,
        Reply::ImportRefused { .. } => StatusCode::UNPROCESSABLE_ENTITY,
    }
}

/// The status of the answer to a command.
fn answer_status(answer: Answer) -> StatusCode
    ensures { result ≡ answer_status answer }
{
    match answer {
        Answer::Done { .. } => StatusCode::OK,
        Answer::Refused(_) => StatusCode::UNPROCESSABLE_ENTITY,
    }
}
