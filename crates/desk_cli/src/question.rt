//! What a user asks of a list.
ghost use Rattle.std.specs.Prelude.{◌≡◌, IfOk, List, option_copied, string_bytes};
ghost use Rattle.deliveries.specs.Delivered.{Holds};
ghost use Rattle.deliveries.specs.declared.delivery.Delivery.{Delivery as a_delivery};
ghost use Rattle.desk_cli.specs.Question.{Means, answer, explanation, point_of, why};
ghost use Rattle.store_memory.specs.Memory.{standing_of};

use crate::until::{until_line, until_of};
use building::Building;
use cli_common::RunFault;
use deliveries::Delivery;
use desk_overrides::overrides_text;
use desk_why::{point_at_end, why_text};
use points::{Point, name_of};
use std::alloc::Global;
use store::StoreFault;
use store_memory::MemStore;

/// What a user asks of a list, in words.
#[derive(Clone, Copy)]
pub enum Question<'a> {
    /// What put each value in the places of a point of this name: `desk why`.
    Why { point: &'a str },
    /// When panels' commands gave points their values: `desk overrides`. Where a moment is said (`moments`), those that
    /// ended after it, or stand.
    Overrides { from: Option<&'a str> },
}

/// What the words mean of a building.
#[derive(Clone, Copy)]
pub(crate) enum Asked<'b> {
    Why { point: &'b Point },
    Overrides { from: Option<i64> },
}

/// What the words mean of a building: a name of none of its points, or what is no moment of its clock, is the fault.
pub(crate) fn asked_of<'a, 'b>(
    building: &'b Building,
    question: Question<'a>,
) -> Result<Asked<'b>, RunFault<'a>>
    ensures { IfOk result (Means building.now question.entry) }
{
    match question {
        Question::Why { point: name } => match point_of(building, name) {
            Some(point) => Ok(Asked::Why { point }),
            None => Err(RunFault::NoPoint { name }),
        },
        Question::Overrides { from } => Ok(Asked::Overrides {
            from: until_of(building, from)?,
        }),
    }
}

/// The point of a name.
fn point_of<'b>(building: &'b Building, name: &str) -> Option<&'b Point>
    ensures { option_copied result ≡ point_of building.now name.now }
{
    building.find_point(&name_of(name)?)
}

/// What a point presents, its places and its next changes.
fn why(
    alloc: Global,
    building: &Building,
    store: &mut MemStore,
    deliveries: &[Delivery],
    point: &Point,
) -> Result<String, StoreFault>
    ensures { (earlier : List a_delivery) → Holds building.now earlier (standing_of store.old)
        → IfOk result (λ text. string_bytes text ≡ why building.now earlier deliveries.now point.now) }
{
    let at_end = point_at_end(alloc, building, store, deliveries, point)?;
    Ok(why_text(alloc, building, point, &at_end)?)
}

/// What is asked after deliveries, which are made to the store.
fn answer(
    alloc: Global,
    building: &Building,
    store: &mut MemStore,
    deliveries: &[Delivery],
    asked: Asked<'_>,
) -> Result<String, StoreFault>
    ensures { (earlier : List a_delivery) → Holds building.now earlier (standing_of store.old)
        → IfOk result (λ text. string_bytes text ≡ answer building.now earlier deliveries.now asked.entry) }
{
    match asked {
        Asked::Why { point } => why(alloc, building, store, deliveries, point),
        Asked::Overrides { from } => overrides_text(alloc, building, store, deliveries, from),
    }
}

/// What is printed of deliveries up to a moment, which are made to the store.
pub(crate) fn explanation(
    alloc: Global,
    building: &Building,
    store: &mut MemStore,
    deliveries: &[Delivery],
    asked: Asked<'_>,
    until: Option<i64>,
) -> Result<String, StoreFault>
    ensures { (earlier : List a_delivery) → Holds building.now earlier (standing_of store.old)
        → IfOk result (λ text. string_bytes text ≡ explanation building.now earlier deliveries.now asked.entry until) }
{
    let mut text = answer(alloc, building, store, deliveries, asked)?;
    let until = until_line(alloc, building, until)?;
    text.push_str(until.as_str())?;
    Ok(text)
}
