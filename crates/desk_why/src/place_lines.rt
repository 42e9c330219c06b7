//! The lines of a point and its places.
ghost use Rattle.std.specs.Prelude.{◌≡◌, ◌++◌, IfOk, OnOk, string_bytes};
ghost use Rattle.std.specs.List.{flat_map};
ghost use Rattle.desk_why.specs.WhyLines.{default_line, held_line, place_line, why_text};

use crate::author::{Held, Place};
use crate::author_texts::author_text;
use crate::next_lines::push_changes;
use crate::walking::PointAtEnd;
use crate::words::{TITLE_WIDTH, VALUE_WIDTH, left_in, right_in, use_of};
use building::Building;
use points::{Point, point_line};
use std::alloc::{AllocError, Global};

/// The places of a priority.
const PRIORITY_WIDTH: usize = 2;

// The line of a place with a value.
fn held_line(
    alloc: Global,
    building: &Building,
    priority: u8,
    held: &Held,
) -> Result<String, AllocError>
    ensures { IfOk result (λ line. string_bytes line ≡ held_line building.now priority held.now) }
{
    let author = author_text(alloc, building, &held.author)?;
    let number = priority.to_string(alloc)?;
    let value = held.value.to_string(alloc)?;
    let number = right_in(alloc, number.as_str(), PRIORITY_WIDTH)?;
    let kept_for = left_in(alloc, use_of(priority), TITLE_WIDTH)?;
    let value = right_in(alloc, value.as_str(), VALUE_WIDTH)?;
    format!(in alloc; "{number}  {kept_for}{value}  {author}\n")
}

// The line of a place, if it has a value.
fn push_place(
    alloc: Global,
    text: &mut String,
    building: &Building,
    place: &Place,
) -> Result<(), AllocError>
    ensures { OnOk result (string_bytes text.new ≡ string_bytes text.old ++ place_line building.now place.now) }
{
    match &place.held {
        Some(held) => {
            let line = held_line(alloc, building, place.priority, held)?;
            text.push_str(line.as_str())
        }
        None => Ok(()),
    }
}

fn push_places(
    alloc: Global,
    text: &mut String,
    building: &Building,
    places: &[Place],
) -> Result<(), AllocError>
    ensures { OnOk result (string_bytes text.new ≡ string_bytes text.old ++ flat_map (place_line building.now) places.now) }
{
    for place in places {
        push_place(alloc, text, building, place)?;
    }
    Ok(())
}

fn default_line(alloc: Global, default: i64) -> Result<String, AllocError>
    ensures { IfOk result (λ line. string_bytes line ≡ default_line default) }
{
    let value = default.to_string(alloc)?;
    let title = left_in(alloc, "Relinquish Default", TITLE_WIDTH)?;
    let value = right_in(alloc, value.as_str(), VALUE_WIDTH)?;
    format!(in alloc; "    {title}{value}\n")
}

/// The line of a point, a line for each of its places that has a value, from priority 1 on, one for its relinquish
/// default, and one for each next change of a schedule that targets it.
pub fn why_text(
    alloc: Global,
    building: &Building,
    point: &Point,
    at_end: &PointAtEnd,
) -> Result<String, AllocError>
    ensures { IfOk result (λ text. string_bytes text
        ≡ why_text building.now point.now (at_end.now.present, at_end.now.priority) at_end.now.places.items
        at_end.now.next.items) }
{
    let mut text = point_line(alloc, &point.name, at_end.present, at_end.priority)?;
    push_places(alloc, &mut text, building, at_end.places.as_slice())?;
    let line = default_line(alloc, point.relinquish_default)?;
    text.push_str(line.as_str())?;
    push_changes(alloc, &mut text, building, at_end.next.as_slice())?;
    Ok(text)
}
