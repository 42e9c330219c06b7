//! A response.

ghost use Rattle.std.specs.Prelude.{IfOk};
ghost use Rattle.panel_http.specs.Response.{Says};

use http::StatusCode;
use std::alloc::{AllocError, Global};
use std::fmt;

/// A response: its status, and its whole text.
#[derive(Drop)]
pub struct Response {
    /// The status, which the text has in its first line.
    pub status: StatusCode,
    /// The text: the head, and the body behind it.
    pub text: String,
}

/// The type of a body.
#[derive(Clone, Copy)]
pub enum ContentType {
    /// `application/json`.
    Json,
    /// `text/plain`.
    PlainText,
}

impl fmt::Display for ContentType {
    ghost use Rattle.std.specs.Prelude.{Some};
    ghost use Rattle.panel_http.specs.Response.{content_text};

    ghost output = { λ content. Some (content_text content) };

    fn fmt<W: fmt::Write>(&self, f: &mut fmt::Formatter<W>) -> fmt::Result {
        f.write_str(match self {
            ContentType::Json => "application/json",
            ContentType::PlainText => "text/plain",
        })
    }
}

/// Room for a head, in bytes: none is longer.
const HEAD_ROOM: usize = 128;

/// The response of a status with a body.
#[tactic(auto, unfolding(crate::specs::Response::response_text))]
pub fn respond(
    alloc: Global,
    status: StatusCode,
    content: ContentType,
    body: &str,
) -> Result<Response, AllocError>
    ensures { IfOk result (Says (record { status = status; content = content; body = body.now })) }
{
    let length = body.len();
    let mut text = String::with_capacity(alloc, length.saturating_add(HEAD_ROOM))?;
    write!(
        text,
        "HTTP/1.1 {status}\r\nContent-Type: {content}\r\nContent-Length: {length}\r\nConnection: close\r\n\r\n{body}"
    )?;
    Ok(Response { status, text })
}
