//! A point in the list of all points.
ghost use Rattle.std.specs.Prelude.{◌≡◌, ◌++◌, IfOk, OnOk, string_bytes};
ghost use Rattle.desk_why.specs.AuthorsTable.{held_in};
ghost use Rattle.desk_views.specs.Views.{by_text, point_view, since_held};

use crate::numbers::number_text;
use crate::present::present_text;
use crate::since::since_of;
use building::Building;
use desk_why::{Authors, Held, author_text};
use points::Name;
use std::alloc::{AllocError, Global};
use std::fmt::Write;

// What gives a point its value, in quotes; `null` for the relinquish default.
fn by_text(alloc: Global, building: &Building, held: &Option<Held>) -> Result<String, AllocError>
    ensures { IfOk result (λ text. string_bytes text ≡ by_text building.now held.now) }
{
    match held {
        Some(held) => {
            let author = author_text(alloc, building, &held.author)?;
            format!(in alloc; "\"{author}\"")
        }
        None => String::from_str(alloc, "null"),
    }
}

// Since when it does.
fn since_held(held: &Option<Held>) -> Option<i64>
    ensures { result ≡ since_held held.now }
{
    match held {
        Some(held) => since_of(&held.author),
        None => None,
    }
}

/// Writes a point as it stands in the list of all points, with what gives its value: the place of `priority`, by a table of
/// authors; where that holds nothing, the relinquish default, and the priority is 0.
pub fn push_point_view(
    alloc: Global,
    text: &mut String,
    building: &Building,
    authors: &Authors,
    point: &Name,
    present: i64,
    priority: u8,
) -> Result<(), AllocError>
    ensures { OnOk result (string_bytes text.new ≡ string_bytes text.old
        ++ point_view building.now point.now present priority (held_in authors.now point.now priority)) }
{
    let held = authors.held(point, priority);
    let by = by_text(alloc, building, &held)?;
    let since = number_text(alloc, since_held(&held))?;
    let present = present_text(alloc, point, present, priority)?;
    write!(text, "{{\"by\":{by},{present},\"since\":{since}}}")
}
