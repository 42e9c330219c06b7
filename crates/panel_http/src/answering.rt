//! The answer to a request.

ghost use Rattle.std.specs.Prelude.{◌≡◌, List, Err};
ghost use Rattle.std.specs.Bool.{IsTrue};
ghost use Rattle.deliveries.specs.declared.delivery.Delivery.{Delivery as a_delivery};
ghost use Rattle.deliveries.specs.Delivered.{Holds};
ghost use Rattle.panel_http.specs.Answers.{Answers};
ghost use Rattle.panel_http.specs.Keeping.{KeepsStep};
ghost use Rattle.panel_http.specs.declared.request.Request.TheVariants as asked;

use crate::looking::{point_answer, report_answer};
use crate::refusal::Refusal;
use crate::refusals::refusal_response;
use crate::replies::{import_refused_response, reply_response};
use crate::request::Request;
use crate::unanswered::Unanswered;
use crate::whole_response::Response;
use deliveries::{Delivery, Reply};
use desk::Desk;
use desk_record::{Recorder, deliver};
use std::alloc::Global;
use store::Store;

/// Answers a request: makes its delivery, or looks at what it asks for. A view, which a follower alone answers, has no
/// route here.
pub(crate) fn answer<S: Store + Drop, K: Recorder>(
    alloc: Global,
    desk: &mut Desk<S>,
    recorder: &mut K,
    request: &Request,
) -> Result<Response, Unanswered>
    ensures answers { (earlier : List a_delivery) → (S.standing desk.new.store).is_honest
        → Holds desk.old.building earlier (S.standing desk.old.store)
        → Answers desk.old.building earlier request.now result (S.standing desk.old.store) (S.standing desk.new.store) }
    ensures not_recorded { result ≡ Err Unanswered.NotRecorded → IsTrue (K.standing recorder.new).is_shut }
    ensures recorded { KeepsStep desk.old.building (K.standing recorder.old) (K.standing recorder.new)
        (S.standing desk.old.store) (S.standing desk.new.store) }
    ensures building { desk.new.building ≡ desk.old.building }
{
    match request {
        Request::Refused(refusal) => {
            refusal_response(alloc, *refusal).or(Err(Unanswered::NoMemory))
        }
        Request::Delivery(delivery) => delivery_answer(alloc, desk, recorder, delivery),
        Request::NoPanel => reply_response(alloc, Reply::NoPanel).or(Err(Unanswered::NoMemory)),
        Request::RefusedImport(fault) => {
            import_refused_response(alloc, *fault).or(Err(Unanswered::NoMemory))
        }
        Request::Point(name) => point_answer(alloc, desk, *name),
        Request::Report(day) => report_answer(alloc, desk, *day),
        Request::View(_) => {
            refusal_response(alloc, Refusal::NoRoute).or(Err(Unanswered::NoMemory))
        }
    }
}

/// Carries out a delivery, and answers its reply.
fn delivery_answer<S: Store + Drop, K: Recorder>(
    alloc: Global,
    desk: &mut Desk<S>,
    recorder: &mut K,
    delivery: &Delivery,
) -> Result<Response, Unanswered>
    ensures answers { (earlier : List a_delivery) → (S.standing desk.new.store).is_honest
        → Holds desk.old.building earlier (S.standing desk.old.store)
        → Answers desk.old.building earlier (asked.Delivery delivery.now) result (S.standing desk.old.store) (S.standing desk.new.store) }
    ensures not_recorded { result ≡ Err Unanswered.NotRecorded → IsTrue (K.standing recorder.new).is_shut }
    ensures recorded { KeepsStep desk.old.building (K.standing recorder.old) (K.standing recorder.new)
        (S.standing desk.old.store) (S.standing desk.new.store) }
    ensures building { desk.new.building ≡ desk.old.building }
{
    let reply = deliver(alloc, desk, recorder, delivery)?;
    reply_response(alloc, reply).or(Err(Unanswered::NoReply))
}
