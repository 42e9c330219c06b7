//! The lines of overrides.
ghost use Rattle.std.specs.Prelude.{◌≡◌, ◌++◌, ◌∷◌, [], IfOk, OnOk, string_bytes};
ghost use Rattle.std.specs.List.{filter, flat_map};
ghost use Rattle.desk_overrides.specs.Lines.{given_text, hours_text, is_asked, last_text, length_text, override_line, times_text};

use crate::overriding::{Ended, Given, Override};
use building::Building;
use desk_why::{left_in, moment_text, right_in};
use points::Name;
use std::alloc::{AllocError, Global};

/// The places of a point's name, of a value and of a priority, as in a `POINT` line.
const NAME_WIDTH: usize = 32;

const VALUE_WIDTH: usize = 12;

const PRIORITY_WIDTH: usize = 2;

fn last_text(alloc: Global, building: &Building, last: Option<i64>) -> Result<String, AllocError>
    ensures { IfOk result (λ text. string_bytes text ≡ last_text building.now last) }
{
    match last {
        Some(moment) => moment_text(alloc, building, moment),
        None => String::from_str(alloc, "before any tick"),
    }
}

fn hours_text(alloc: Global, hundredths: u64) -> Result<String, AllocError>
    ensures { IfOk result (λ text. string_bytes text ≡ hours_text hundredths) }
{
    let (hours, minutes) = (hundredths / 360_000, hundredths / 6_000 % 60);
    format!(in alloc; ", {hours} h {minutes:02} min")
}

// How long, where both moments are known.
fn length_text(alloc: Global, from: Option<i64>, to: Option<i64>) -> Result<String, AllocError>
    ensures { IfOk result (λ text. string_bytes text ≡ length_text from to) }
{
    match (from, to) {
        (Some(from), Some(to)) => hours_text(alloc, to.abs_diff(from)),
        _ => Ok(String::new(alloc)),
    }
}

// When an override was, where the list ends after this last tick.
fn times_text(
    alloc: Global,
    building: &Building,
    last: Option<i64>,
    began: Option<i64>,
    ended: Option<Ended>,
) -> Result<String, AllocError>
    ensures { IfOk result (λ text. string_bytes text ≡ times_text building.now last began ended) }
{
    let from = last_text(alloc, building, began)?;
    match ended {
        Some(end) => {
            let to = last_text(alloc, building, end.last)?;
            let length = length_text(alloc, began, end.last)?;
            format!(in alloc; "from {from} to {to}{length}")
        }
        None => {
            let length = length_text(alloc, began, last)?;
            format!(in alloc; "since {from}{length}")
        }
    }
}

// The point, its value and the priority, and the command.
fn given_text(alloc: Global, point: &Name, given: &Given) -> Result<String, AllocError>
    ensures { IfOk result (λ text. string_bytes text ≡ given_text point.now given.now) }
{
    let name = left_in(alloc, point.as_str(), NAME_WIDTH)?;
    let value = given.value.to_string(alloc)?;
    let value = right_in(alloc, value.as_str(), VALUE_WIDTH)?;
    let priority = given.priority.to_string(alloc)?;
    let priority = right_in(alloc, priority.as_str(), PRIORITY_WIDTH)?;
    let panel = given.panel.as_str();
    let number = given.number;
    format!(in alloc; "{name}{value} {priority}  panel {panel} #{number}")
}

#[tactic(auto, unfolding(crate::specs::Lines::override_line))]
fn override_line(
    alloc: Global,
    building: &Building,
    last: Option<i64>,
    point: &Name,
    it: &Override,
) -> Result<String, AllocError>
    ensures { IfOk result (λ line. string_bytes line ≡ override_line building.now last point.now it.now) }
{
    let given = given_text(alloc, point, &it.given)?;
    let times = times_text(alloc, building, last, it.began, it.ended)?;
    format!(in alloc; "{given}, {times}\n")
}

// Whether an override ended after a moment, if one is said, or stands.
fn is_asked(from: Option<i64>, it: &Override) -> bool
    ensures { result ≡ is_asked from it.now }
{
    match (from, it.ended) {
        (Some(from), Some(Ended { last: Some(last) })) => from < last,
        (Some(_), Some(Ended { last: None })) => false,
        _ => true,
    }
}

// The line of an override, if it is asked for.
fn push_line(
    alloc: Global,
    text: &mut String,
    building: &Building,
    last: Option<i64>,
    from: Option<i64>,
    point: &Name,
    it: &Override,
) -> Result<(), AllocError>
    ensures { OnOk result (string_bytes text.new ≡ string_bytes text.old
        ++ flat_map (override_line building.now last point.now) (filter (is_asked from) (it.now ∷ []))) }
{
    if !is_asked(from, it) {
        return Ok(());
    }
    let line = override_line(alloc, building, last, point, it)?;
    text.push_str(line.as_str())
}

/// Writes the lines of a point's overrides that ended after `from`, or stand after the list's last tick; without `from` all.
pub(crate) fn push_lines(
    alloc: Global,
    text: &mut String,
    building: &Building,
    last: Option<i64>,
    from: Option<i64>,
    point: &Name,
    overrides: &[Override],
) -> Result<(), AllocError>
    ensures { OnOk result (string_bytes text.new ≡ string_bytes text.old
        ++ flat_map (override_line building.now last point.now) (filter (is_asked from) overrides.now)) }
{
    for it in overrides {
        push_line(alloc, text, building, last, from, point, it)?;
    }
    Ok(())
}
