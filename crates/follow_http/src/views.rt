//! The answers of what a follower holds.
ghost use Rattle.std.specs.Prelude.{◌≡◌, ◌++◌, IfOk, List, OnOk, Some};
ghost use Rattle.deliveries.specs.declared.delivery.Delivery.{Delivery as a_delivery};
ghost use Rattle.desk_follow.specs.Followed.{HasFollowed};
ghost use Rattle.follow_http.specs.Seen.{IsViewSaid};
ghost use Rattle.panel_http.specs.Answers.{IsSaid};
ghost use Rattle.panel_http.specs.Response.{Said, Says, json};
ghost use Rattle.panel_http.specs.declared.request.Request.TheVariants as asked;
ghost use Rattle.panel_http.specs.declared.view.View.TheVariants as view;

use crate::points_view::points_view;
use building::Building;
use dates::Day;
use desk_follow::Follower;
use desk_views::{record_view, why_view};
use panel_http::{
    ContentType, Refusal, Response, StatusCode, Unanswered, View, no_day_response,
    no_point_response, refusal_response, report_response, respond, state_response,
};
use points::Name;
use std::alloc::{AllocError, Global};

/// The response with a body.
fn viewed(alloc: Global, body: &str) -> Result<Response, Unanswered>
    ensures { IfOk result (Says (json 200 body.now)) }
{
    respond(alloc, StatusCode::OK, ContentType::Json, body).or(Err(Unanswered::NoMemory))
}

/// Answers how a point is, as the desk does.
pub(crate) fn point_answer(
    alloc: Global,
    building: &Building,
    follower: &mut Follower,
    name: Option<Name>,
) -> Result<Response, Unanswered>
    ensures says { (earlier deliveries : List a_delivery) → HasFollowed building.now earlier deliveries follower.old
        → IfOk result (λ response. (said : Said) × Says said response
        × IsSaid building.now (earlier ++ deliveries) (asked.Point name) said) }
    ensures kept { (earlier deliveries : List a_delivery) → HasFollowed building.now earlier deliveries follower.old
        → OnOk result (HasFollowed building.now earlier deliveries follower.new) }
{
    let Some(name) = name else {
        return no_point_response(alloc).or(Err(Unanswered::NoMemory));
    };
    let state = follower.point(building, &name)?;
    state_response(alloc, &name, &state).or(Err(Unanswered::NoMemory))
}

/// Answers the report of a day, as the desk does; none is no day.
pub(crate) fn report_answer(
    alloc: Global,
    building: &Building,
    follower: &mut Follower,
    day: Option<Day>,
) -> Result<Response, Unanswered>
    ensures says { (earlier deliveries : List a_delivery) → HasFollowed building.now earlier deliveries follower.old
        → IfOk result (λ response. (said : Said) × Says said response
        × IsSaid building.now (earlier ++ deliveries) (asked.Report day) said) }
    ensures kept { (earlier deliveries : List a_delivery) → HasFollowed building.now earlier deliveries follower.old
        → OnOk result (HasFollowed building.now earlier deliveries follower.new) }
{
    match day {
        Some(day) => day_answer(alloc, building, follower, day),
        None => no_day_response(alloc).or(Err(Unanswered::NoMemory)),
    }
}

/// Answers the report of a day.
fn day_answer(
    alloc: Global,
    building: &Building,
    follower: &mut Follower,
    day: Day,
) -> Result<Response, Unanswered>
    ensures says { (earlier deliveries : List a_delivery) → HasFollowed building.now earlier deliveries follower.old
        → IfOk result (λ response. (said : Said) × Says said response
        × IsSaid building.now (earlier ++ deliveries) (asked.Report (Some day)) said) }
    ensures kept { (earlier deliveries : List a_delivery) → HasFollowed building.now earlier deliveries follower.old
        → OnOk result (HasFollowed building.now earlier deliveries follower.new) }
{
    let report = follower.report(alloc, building, day)?;
    match report_response(alloc, report.as_str()) {
        Ok(response) => Ok(response),
        Err(AllocError) => Err(Unanswered::NoMemory),
    }
}

/// Answers why a point has its value.
fn why_answer(
    alloc: Global,
    building: &Building,
    follower: &mut Follower,
    name: &Name,
) -> Result<Response, Unanswered>
    ensures says { (earlier deliveries : List a_delivery) → HasFollowed building.now earlier deliveries follower.old
        → IfOk result (λ response. (said : Said) × Says said response
        × IsViewSaid building.now earlier deliveries (view.Why (Some name.now)) said) }
    ensures kept { (earlier deliveries : List a_delivery) → HasFollowed building.now earlier deliveries follower.old
        → OnOk result (HasFollowed building.now earlier deliveries follower.new) }
{
    let Some(point) = building.find_point(name) else {
        return no_point_response(alloc).or(Err(Unanswered::NoMemory));
    };
    let now = follower.why(alloc, building, point)?;
    match why_view(alloc, building, point, &now) {
        Ok(body) => viewed(alloc, body.as_str()),
        Err(AllocError) => Err(Unanswered::NoMemory),
    }
}

/// Answers what each point presents.
fn points_answer(
    alloc: Global,
    building: &Building,
    follower: &mut Follower,
) -> Result<Response, Unanswered>
    ensures says { (earlier deliveries : List a_delivery) → HasFollowed building.now earlier deliveries follower.old
        → IfOk result (λ response. (said : Said) × Says said response
        × IsViewSaid building.now earlier deliveries view.Points said) }
    ensures kept { (earlier deliveries : List a_delivery) → HasFollowed building.now earlier deliveries follower.old
        → OnOk result (HasFollowed building.now earlier deliveries follower.new) }
{
    let body = points_view(alloc, building, follower)?;
    viewed(alloc, body.as_str())
}

/// Answers how far the record was followed.
fn record_answer(
    alloc: Global,
    building: &Building,
    follower: &mut Follower,
) -> Result<Response, Unanswered>
    ensures says { (earlier deliveries : List a_delivery) → HasFollowed building.now earlier deliveries follower.old
        → IfOk result (λ response. (said : Said) × Says said response
        × IsViewSaid building.now earlier deliveries view.Record said) }
    ensures kept { (earlier deliveries : List a_delivery) → HasFollowed building.now earlier deliveries follower.old
        → OnOk result (HasFollowed building.now earlier deliveries follower.new) }
{
    let last = follower.last_tick()?;
    match record_view(alloc, follower.count(), last) {
        Ok(body) => viewed(alloc, body.as_str()),
        Err(AllocError) => Err(Unanswered::NoMemory),
    }
}

/// Answers what is asked of what a follower holds.
pub(crate) fn view_answer(
    alloc: Global,
    building: &Building,
    follower: &mut Follower,
    view: View,
) -> Result<Response, Unanswered>
    ensures says { (earlier deliveries : List a_delivery) → HasFollowed building.now earlier deliveries follower.old
        → IfOk result (λ response. (said : Said) × Says said response
        × IsViewSaid building.now earlier deliveries view said) }
    ensures kept { (earlier deliveries : List a_delivery) → HasFollowed building.now earlier deliveries follower.old
        → OnOk result (HasFollowed building.now earlier deliveries follower.new) }
{
    match view {
        View::Points => points_answer(alloc, building, follower),
        View::Why(Some(name)) => why_answer(alloc, building, follower, &name),
        View::Why(None) => no_point_response(alloc).or(Err(Unanswered::NoMemory)),
        View::Record => record_answer(alloc, building, follower),
        View::Panel(_) | View::Metrics => {
            refusal_response(alloc, Refusal::NoRoute).or(Err(Unanswered::NoMemory))
        }
    }
}
