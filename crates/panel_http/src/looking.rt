//! The answers to who looks at a point or a day.

ghost use Rattle.std.specs.Prelude.{◌≡◌, List, IfOk, Some, Err};
ghost use Rattle.deliveries.specs.declared.delivery.Delivery.{Delivery as a_delivery};
ghost use Rattle.deliveries.specs.Delivered.{Holds};
ghost use Rattle.panel_http.specs.Answers.{Answers, state_said};
ghost use Rattle.panel_http.specs.Looking.{OnlyReads};
ghost use Rattle.panel_http.specs.Response.{Says};
ghost use Rattle.panel_http.specs.declared.request.Request.TheVariants as asked;

use crate::point_text::{no_point_response, point_response};
use crate::reports::{no_day_response, report_response};
use crate::unanswered::Unanswered;
use crate::whole_response::Response;
use dates::Day;
use desk::{Desk, PointState};
use points::Name;
use std::alloc::{AllocError, Global};
use store::Store;

/// Answers how a point is; none is one that no building has.
pub(crate) fn point_answer<S: Store + Drop>(
    alloc: Global,
    desk: &mut Desk<S>,
    name: Option<Name>,
) -> Result<Response, Unanswered>
    ensures answers { (earlier : List a_delivery) → (S.standing desk.new.store).is_honest
        → Holds desk.old.building earlier (S.standing desk.old.store)
        → Answers desk.old.building earlier (asked.Point name) result (S.standing desk.old.store) (S.standing desk.new.store) }
    ensures recorded { result ≡ Err Unanswered.NotRecorded → ⊥ }
    ensures reads { (S.standing desk.new.store).is_honest → OnlyReads (S.standing desk.old.store) (S.standing desk.new.store) }
    ensures honest { (S.standing desk.new.store).is_honest → (S.standing desk.old.store).is_honest }
    ensures building { desk.new.building ≡ desk.old.building }
{
    match name {
        Some(name) => named_point_answer(alloc, desk, &name),
        None => no_point_response(alloc).or(Err(Unanswered::NoMemory)),
    }
}

/// Answers how the point of a name is.
fn named_point_answer<S: Store + Drop>(
    alloc: Global,
    desk: &mut Desk<S>,
    name: &Name,
) -> Result<Response, Unanswered>
    ensures answers { (earlier : List a_delivery) → (S.standing desk.new.store).is_honest
        → Holds desk.old.building earlier (S.standing desk.old.store)
        → Answers desk.old.building earlier (asked.Point (Some name.now)) result (S.standing desk.old.store) (S.standing desk.new.store) }
    ensures recorded { result ≡ Err Unanswered.NotRecorded → ⊥ }
    ensures reads { (S.standing desk.new.store).is_honest → OnlyReads (S.standing desk.old.store) (S.standing desk.new.store) }
    ensures honest { (S.standing desk.new.store).is_honest → (S.standing desk.old.store).is_honest }
    ensures building { desk.new.building ≡ desk.old.building }
{
    let state = desk.point(name)?;
    state_response(alloc, name, &state).or(Err(Unanswered::NoMemory))
}

/// The response with the state of a point, or that there is none.
pub fn state_response(
    alloc: Global,
    name: &Name,
    state: &Option<PointState>,
) -> Result<Response, AllocError>
    ensures { IfOk result (Says (state_said name.now state.now)) }
{
    match state {
        Some(state) => point_response(alloc, name, &state.places, state.present, state.priority),
        None => no_point_response(alloc),
    }
}

/// Answers the report of a day; none is no day.
pub(crate) fn report_answer<S: Store + Drop>(
    alloc: Global,
    desk: &mut Desk<S>,
    day: Option<Day>,
) -> Result<Response, Unanswered>
    ensures answers { (earlier : List a_delivery) → (S.standing desk.new.store).is_honest
        → Holds desk.old.building earlier (S.standing desk.old.store)
        → Answers desk.old.building earlier (asked.Report day) result (S.standing desk.old.store) (S.standing desk.new.store) }
    ensures recorded { result ≡ Err Unanswered.NotRecorded → ⊥ }
    ensures reads { (S.standing desk.new.store).is_honest → OnlyReads (S.standing desk.old.store) (S.standing desk.new.store) }
    ensures honest { (S.standing desk.new.store).is_honest → (S.standing desk.old.store).is_honest }
    ensures building { desk.new.building ≡ desk.old.building }
{
    match day {
        Some(day) => day_answer(alloc, desk, day),
        None => no_day_response(alloc).or(Err(Unanswered::NoMemory)),
    }
}

/// Answers the report of a day.
fn day_answer<S: Store + Drop>(
    alloc: Global,
    desk: &mut Desk<S>,
    day: Day,
) -> Result<Response, Unanswered>
    ensures answers { (earlier : List a_delivery) → (S.standing desk.new.store).is_honest
        → Holds desk.old.building earlier (S.standing desk.old.store)
        → Answers desk.old.building earlier (asked.Report (Some day)) result (S.standing desk.old.store) (S.standing desk.new.store) }
    ensures recorded { result ≡ Err Unanswered.NotRecorded → ⊥ }
    ensures reads { (S.standing desk.new.store).is_honest → OnlyReads (S.standing desk.old.store) (S.standing desk.new.store) }
    ensures honest { (S.standing desk.new.store).is_honest → (S.standing desk.old.store).is_honest }
    ensures building { desk.new.building ≡ desk.old.building }
{
    let report = desk.report(day)?;
    report_response(alloc, report.as_str()).or(Err(Unanswered::NoMemory))
}
