//! Why a point has its value.
ghost use Rattle.std.specs.Prelude.{◌≡◌, IfOk, string_bytes};
ghost use Rattle.desk_views.specs.Views.{why_view};

use crate::change_views::changes_view;
use crate::place_views::places_view;
use crate::present::present_text;
use building::Building;
use desk_why::PointAtEnd;
use points::Point;
use std::alloc::{AllocError, Global};

/// Why a point has its value.
pub fn why_view(
    alloc: Global,
    building: &Building,
    point: &Point,
    now: &PointAtEnd,
) -> Result<String, AllocError>
    ensures { IfOk result (λ text. string_bytes text
        ≡ why_view building.now point.now (now.now.present, now.now.priority) now.now.places.items now.now.next.items) }
{
    let next = changes_view(alloc, building, now.next.as_slice())?;
    let places = places_view(alloc, building, now.places.as_slice())?;
    let present = present_text(alloc, &point.name, now.present, now.priority)?;
    let default = point.relinquish_default;
    format!(in alloc;
        "{{\"answer\":\"why\",\"next\":[{next}],\"places\":[{places}],{present},\"relinquish_default\":{default}}}"
    )
}
