//! A response, written.

ghost use Rattle.std.specs.Prelude.{Some};
ghost use Rattle.panel_http.specs.Serving.{Writes, written};

use crate::Served;
use crate::counted_end::Counted;
use crate::fixed_texts::{no_memory_text, store_text};
use crate::text_writing::write_text;
use crate::unanswered::Unanswered;
use crate::whole_response::Response;
use http::StatusCode;
use std::io::Write;

/// Writes the response that an answer has. Where there is none of its own, that is one which takes no memory, or nothing
/// is written.
pub fn write_answer<W: Write>(
    writer: &mut Counted<W>,
    answer: Result<Response, Unanswered>,
) -> Served
    ensures { Writes (written answer) (W.contents writer.old.inner) (W.contents writer.new.inner) writer.old.failures
        writer.new.failures result }
{
    match answer {
        Ok(response) => write_response(writer, response.status, response.text.as_str()),
        Err(Unanswered::NoMemory) => {
            write_response(writer, StatusCode::SERVICE_UNAVAILABLE, no_memory_text())
        }
        Err(Unanswered::NotRecorded | Unanswered::Store) => {
            write_response(writer, StatusCode::INTERNAL_SERVER_ERROR, store_text())
        }
        Err(Unanswered::NoReply) => Served::NoReply,
    }
}

/// Writes the text of a response with this status.
fn write_response<W: Write>(writer: &mut Counted<W>, status: StatusCode, text: &str) -> Served
    ensures { Writes (Some (status, text.now)) (W.contents writer.old.inner) (W.contents writer.new.inner) writer.old.failures
        writer.new.failures result }
{
    if write_text(writer, text.as_bytes()) {
        Served::Answered(status)
    } else {
        Served::ReplyLost
    }
}
