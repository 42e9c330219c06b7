//! The places of a point that hold a value.
ghost use Rattle.std.specs.Prelude.{◌≡◌, ◌++◌, IfOk, OnOk, string_bytes};
ghost use Rattle.std.specs.List.{filter_map};
ghost use Rattle.desk_views.specs.Views.{divided, held_view, place_view};

use crate::numbers::number_text;
use crate::since::since_of;
use building::Building;
use desk_why::{Held, Place, author_text};
use std::alloc::{AllocError, Global};
use std::fmt::Write;

// Writes a place that holds a value.
#[tactic(auto, unfolding(crate::specs::Views::held_view))]
fn push_held(
    alloc: Global,
    text: &mut String,
    building: &Building,
    priority: u8,
    held: &Held,
) -> Result<(), AllocError>
    ensures { OnOk result (string_bytes text.new ≡ string_bytes text.old ++ held_view building.now priority held.now) }
{
    let by = author_text(alloc, building, &held.author)?;
    let since = number_text(alloc, since_of(&held.author))?;
    let value = held.value;
    write!(
        text,
        "{{\"by\":\"{by}\",\"priority\":{priority},\"since\":{since},\"value\":{value}}}"
    )
}

/// The places that hold a value, in the order given, divided by commas.
pub fn places_view(
    alloc: Global,
    building: &Building,
    places: &[Place],
) -> Result<String, AllocError>
    ensures { IfOk result (λ text. string_bytes text ≡ divided (filter_map (place_view building.now) places.now)) }
{
    let mut text = String::new(alloc);
    let mut comma = "";
    for place in places {
        let Some(held) = &place.held else { continue };
        text.push_str(comma)?;
        push_held(alloc, &mut text, building, place.priority, held)?;
        comma = ",";
    }
    Ok(text)
}
