//! All points, as they are told.
ghost use Rattle.std.specs.Prelude.{◌≡◌, IfOk, List, OnOk, map, string_bytes};
ghost use Rattle.deliveries.specs.declared.delivery.Delivery.{Delivery as a_delivery};
ghost use Rattle.desk_follow.specs.Followed.{HasFollowed, point_text};
ghost use Rattle.follow_http.specs.Seen.{points_view};
ghost use Rattle.desk_views.specs.Views.{divided};

use building::Building;
use desk_follow::Follower;
use std::alloc::Global;
use store::StoreFault;

/// What each point presents, divided by commas.
fn points_list(
    alloc: Global,
    building: &Building,
    follower: &mut Follower,
) -> Result<String, StoreFault>
    ensures tells { (earlier deliveries : List a_delivery) → HasFollowed building.now earlier deliveries follower.old
        → IfOk result (λ text. string_bytes text ≡ divided (map (point_text building.now earlier deliveries) building.now.points)) }
    ensures kept { (earlier deliveries : List a_delivery) → HasFollowed building.now earlier deliveries follower.old
        → OnOk result (HasFollowed building.now earlier deliveries follower.new) }
{
    let mut text = String::new(alloc);
    let mut comma = "";
    for point in building.points() {
        text.push_str(comma)?;
        follower.push_point(alloc, &mut text, building, point)?;
        comma = ",";
    }
    Ok(text)
}

/// The list of all points of the building, in the order of the file.
pub(crate) fn points_view(
    alloc: Global,
    building: &Building,
    follower: &mut Follower,
) -> Result<String, StoreFault>
    ensures tells { (earlier deliveries : List a_delivery) → HasFollowed building.now earlier deliveries follower.old
        → IfOk result (λ text. string_bytes text ≡ points_view building.now earlier deliveries) }
    ensures kept { (earlier deliveries : List a_delivery) → HasFollowed building.now earlier deliveries follower.old
        → OnOk result (HasFollowed building.now earlier deliveries follower.new) }
{
    let points = points_list(alloc, building, follower)?;
    let text = format!(in alloc; "{{\"answer\":\"points\",\"points\":[{points}]}}")?;
    Ok(text)
}
