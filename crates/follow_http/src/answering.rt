//! The answer to a request.
ghost use Rattle.std.specs.Prelude.{◌≡◌, IfOk, List, OnOk};
ghost use Rattle.deliveries.specs.declared.delivery.Delivery.{Delivery as a_delivery};
ghost use Rattle.desk_follow.specs.Followed.{HasFollowed};
ghost use Rattle.follow_http.specs.Seen.{IsSeen};
ghost use Rattle.panel_http.specs.Response.{Said, Says};

use crate::views::{point_answer, report_answer, view_answer};
use building::Building;
use desk_follow::Follower;
use panel_http::{Refusal, Request, Response, Unanswered, refusal_response};
use std::alloc::Global;

/// Answers a request by what a follower holds, which stays as it is. Where memory is refused, nothing is known of what is
/// held any more.
pub fn answer_view(
    alloc: Global,
    building: &Building,
    follower: &mut Follower,
    request: &Request,
) -> Result<Response, Unanswered>
    ensures says { (earlier deliveries : List a_delivery) → HasFollowed building.now earlier deliveries follower.old
        → IfOk result (λ response. (said : Said) × Says said response × IsSeen building.now earlier deliveries request.now said) }
    ensures kept { (earlier deliveries : List a_delivery) → HasFollowed building.now earlier deliveries follower.old
        → OnOk result (HasFollowed building.now earlier deliveries follower.new) }
{
    match request {
        Request::Refused(refusal) => {
            refusal_response(alloc, *refusal).or(Err(Unanswered::NoMemory))
        }
        Request::Delivery(_) | Request::NoPanel | Request::RefusedImport(_) => {
            refusal_response(alloc, Refusal::NoRoute).or(Err(Unanswered::NoMemory))
        }
        Request::Point(name) => point_answer(alloc, building, follower, *name),
        Request::Report(day) => report_answer(alloc, building, follower, *day),
        Request::View(view) => view_answer(alloc, building, follower, *view),
    }
}
