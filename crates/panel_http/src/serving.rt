//! A request, served.

ghost use Rattle.std.specs.Prelude.{◌≡◌, ◌<◌, ◌⊎◌, ◌++◌, ℕ, List, [], length, Some};
ghost use Rattle.deliveries.specs.declared.delivery.Delivery.{Delivery as a_delivery};
ghost use Rattle.deliveries.specs.Delivered.{Holds};
ghost use Rattle.panel_http.specs.Keeping.{KeepsStep};
ghost use Rattle.panel_http.specs.Serving.{Serves};
ghost use Rattle.panel_http.specs.Requests.{IsRequest};
ghost use Rattle.panel_http.specs.Whole.{IsWhole};

use crate::Served;
use crate::answering::answer;
use crate::counted_end::Counted;
use crate::gathering::{Gathered, gather_whole, gives_more};
use crate::request::Request;
use crate::routes::Routes;
use crate::unanswered::Unanswered;
use crate::whole_input::request_in;
use crate::writing::write_answer;
use desk::Desk;
use desk_record::Recorder;
use std::alloc::{AllocError, Global};
use std::io::{Read, Write};
use store::Store;

/// Reads one request, in whatever pieces it comes, makes its delivery, and writes one response.
pub fn serve_one<R: Read, W: Write, S: Store + Drop, K: Recorder>(
    alloc: Global,
    routes: &Routes,
    reader: &mut Counted<R>,
    writer: &mut Counted<W>,
    desk: &mut Desk<S>,
    recorder: &mut K,
) -> Served
    ensures serves { (bytes : List ℕ) (earlier : List a_delivery) → R.remaining reader.old.inner ≡ Some bytes
        → (S.standing desk.new.store).is_honest → Holds desk.old.building earlier (S.standing desk.old.store)
        → Serves desk.old.building earlier bytes reader.old.failures reader.new.failures
        (W.contents writer.old.inner) (W.contents writer.new.inner) writer.old.failures writer.new.failures
        (S.standing desk.old.store) (S.standing desk.new.store) (K.standing recorder.new).is_shut result }
    ensures recorded { KeepsStep desk.old.building (K.standing recorder.old) (K.standing recorder.new)
        (S.standing desk.old.store) (S.standing desk.new.store) }
    ensures building { desk.new.building ≡ desk.old.building }
{
    let mut come = Vec::new(alloc);
    match gather_whole(alloc, routes, desk.building(), reader, &mut come) {
        Gathered::Asks(request) => serve_request(alloc, &request, writer, desk, recorder),
        Gathered::Ended => serve_come(alloc, routes, &come, writer, desk, recorder),
        Gathered::Waits | Gathered::Lost => Served::NoRequest,
        Gathered::Whole | Gathered::HasMore | Gathered::NoMemory => {
            if come.is_empty() && !gives_more(reader) {
                return Served::NoRequest;
            }
            write_answer(writer, Err(Unanswered::NoMemory))
        }
    }
}

/// Serves an input of which these bytes have come: a whole request, or all that there is.
pub fn serve_come<W: Write, S: Store + Drop, K: Recorder>(
    alloc: Global,
    routes: &Routes,
    come: &[u8],
    writer: &mut Counted<W>,
    desk: &mut Desk<S>,
    recorder: &mut K,
) -> Served
    ensures serves { (more : List ℕ) (earlier : List a_delivery) → IsWhole desk.old.building come.now ⊎ (more ≡ [])
        → (S.standing desk.new.store).is_honest → Holds desk.old.building earlier (S.standing desk.old.store)
        → Serves desk.old.building earlier (come.now ++ more) 0 0
        (W.contents writer.old.inner) (W.contents writer.new.inner) writer.old.failures writer.new.failures
        (S.standing desk.old.store) (S.standing desk.new.store) (K.standing recorder.new).is_shut result }
    ensures recorded { KeepsStep desk.old.building (K.standing recorder.old) (K.standing recorder.new)
        (S.standing desk.old.store) (S.standing desk.new.store) }
    ensures building { desk.new.building ≡ desk.old.building }
{
    if come.is_empty() {
        return Served::NoRequest;
    }
    match request_in(alloc, routes, desk.building(), come) {
        Ok(request) => serve_request(alloc, &request, writer, desk, recorder),
        Err(AllocError) => write_answer(writer, Err(Unanswered::NoMemory)),
    }
}

/// Serves a request that was read before. Whatever bytes ask it get what `serve_one` gives to them, whatever its reader
/// counts.
pub fn serve_request<W: Write, S: Store + Drop, K: Recorder>(
    alloc: Global,
    request: &Request,
    writer: &mut Counted<W>,
    desk: &mut Desk<S>,
    recorder: &mut K,
) -> Served
    ensures serves { (bytes : List ℕ) (earlier : List a_delivery) (read_before read_after : ℕ)
        → 0 < length bytes → IsRequest desk.old.building bytes request.now
        → (S.standing desk.new.store).is_honest → Holds desk.old.building earlier (S.standing desk.old.store)
        → Serves desk.old.building earlier bytes read_before read_after
        (W.contents writer.old.inner) (W.contents writer.new.inner) writer.old.failures writer.new.failures
        (S.standing desk.old.store) (S.standing desk.new.store) (K.standing recorder.new).is_shut result }
    ensures recorded { KeepsStep desk.old.building (K.standing recorder.old) (K.standing recorder.new)
        (S.standing desk.old.store) (S.standing desk.new.store) }
    ensures building { desk.new.building ≡ desk.old.building }
{
    let response = answer(alloc, desk, recorder, request);
    write_answer(writer, response)
}
