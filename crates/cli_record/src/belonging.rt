//! What no rule of a building decides, in a store and in that of a record.
ghost use Rattle.std.specs.Prelude.{◌≡◌, ◌||◌, is_some};
ghost use Rattle.store.specs.Standing.{IsOpen};
ghost use Rattle.cli_record.specs.Belonging.{Alike, AlikeAtPanel, AlikeAtPanels, AlikeOrTold, SentAlike, TellsFirst, of_both};
ghost use Rattle.cli_record.specs.Compared.{Compares};
ghost use Rattle.cli_record.specs.SentRuns.{AreRuns};

use crate::comparing::{CompareFault, last_ticks};
use crate::difference::Difference;
use crate::panels::{end_number, first_number, nexts};
use crate::places::first_place;
use crate::same_row::is_same_value;
use crate::sent_runs::first_unlike;
use building::Building;
use points::{Name, NumberedRow, Panel};
use std::alloc::Global;
use store::Store;

/// What is found first where a store is compared with that of a record.
#[derive(Clone, Copy)]
pub struct First {
    /// A difference in what no rule of the building decides: the store is not the record's own.
    pub difference: Option<Difference>,
    /// Where there is none, the first place of a point where the store has another value.
    pub otherwise: Option<Difference>,
}

impl First {
    /// Whether anything was found.
    pub fn has_any(&self) -> bool
        ensures { result ≡ (is_some self.now.difference || is_some self.now.otherwise) }
    {
        self.difference.is_some() || self.otherwise.is_some()
    }
}

/// Of what is found beside all of a record's deliveries but the last, and beside all: the second, unless the store is
/// alike to the first alone.
pub fn of_both(before: First, all: First) -> First
    ensures { result ≡ of_both before all }
{
    match all.difference {
        None => all,
        Some(_) => match before.difference {
            None => before,
            Some(_) => all,
        },
    }
}

/// The rows of a panel on either side.
#[derive(Drop)]
struct Runs {
    held: Vec<NumberedRow>,
    recorded: Vec<NumberedRow>,
}

/// The rows of a panel under the numbers that it may still repeat or use, if its next number is this one.
fn both_runs<S: Store, T: Store>(
    store: &mut S,
    other: &mut T,
    panel: &Name,
    next: u64,
) -> Result<Runs, CompareFault>
    requires open { IsOpen (S.standing store.old) }
    ensures { Compares (λ held recorded runs. AreRuns (held.row panel.now) (recorded.row panel.now) next runs.held.items runs.recorded.items)
        result (S.standing store.old) (S.standing store.new) (T.standing other.old) (T.standing other.new) }
{
    let end = end_number(next);
    let from = first_number(next).min(end);
    let held = store.commands_run(panel, from, end)?;
    match other.commands_run(panel, from, end) {
        Ok(recorded) => Ok(Runs { held, recorded }),
        Err(fault) => Err(CompareFault::Recorded(fault)),
    }
}

/// A number under which a panel sent something else, or nothing, on one side.
fn unlike_command<S: Store, T: Store>(
    store: &mut S,
    other: &mut T,
    panel: &Name,
    next: u64,
) -> Result<Option<Difference>, CompareFault>
    requires open { IsOpen (S.standing store.old) }
    ensures { Compares (λ held recorded found. AlikeOrTold (SentAlike (held.row panel.now) (recorded.row panel.now) next) held recorded found)
        result (S.standing store.old) (S.standing store.new) (T.standing other.old) (T.standing other.new) }
{
    let runs = both_runs(store, other, panel, next)?;
    match first_unlike(runs.held.as_slice(), runs.recorded.as_slice()) {
        None => Ok(None),
        Some(number) => {
            if number < end_number(next) {
                Ok(Some(Difference::Command {
                    panel: *panel,
                    number,
                }))
            } else {
                Ok(None)
            }
        }
    }
}

/// Where a panel has another next number, or sent something else.
fn unlike_panel<S: Store, T: Store>(
    store: &mut S,
    other: &mut T,
    panel: &Name,
) -> Result<Option<Difference>, CompareFault>
    requires open { IsOpen (S.standing store.old) }
    ensures { Compares (λ held recorded found. AlikeOrTold (AlikeAtPanel held recorded panel.now) held recorded found)
        result (S.standing store.old) (S.standing store.new) (T.standing other.old) (T.standing other.new) }
{
    let (held, recorded) = nexts(store, other, panel)?;
    if held != recorded {
        return Ok(Some(Difference::NextNumber {
            panel: *panel,
            held,
            recorded,
        }));
    }
    unlike_command(store, other, panel, held)
}

/// Where the first panel has another next number, or sent something else.
fn unlike_panels<S: Store, T: Store>(
    store: &mut S,
    other: &mut T,
    panels: &[Panel],
) -> Result<Option<Difference>, CompareFault>
    requires open { IsOpen (S.standing store.old) }
    requires open_other { IsOpen (T.standing other.old) }
    ensures { Compares (λ held recorded found. AlikeOrTold (AlikeAtPanels held recorded panels.now) held recorded found)
        result (S.standing store.old) (S.standing store.new) (T.standing other.old) (T.standing other.new) }
{
    for panel in panels {
        let found = unlike_panel(store, other, &panel.name)?;
        if found.is_some() {
            return Ok(found);
        }
    }
    Ok(None)
}

/// The first difference between a store and that of a record in what no rule of the building decides: panels in the
/// order of the file, and the last tick. Both stores are only read; a fault of the first is `Held`, one of the other
/// `Recorded`.
fn first_difference<S: Store, T: Store>(
    building: &Building,
    store: &mut S,
    other: &mut T,
) -> Result<Option<Difference>, CompareFault>
    ensures { Compares (λ held recorded found. AlikeOrTold (Alike building.now held recorded) held recorded found)
        result (S.standing store.old) (S.standing store.new) (T.standing other.old) (T.standing other.new) }
{
    let (held, recorded) = last_ticks(store, other)?;
    let found = unlike_panels(store, other, building.panels())?;
    if found.is_some() {
        return Ok(found);
    }
    if is_same_value(held, recorded) {
        Ok(None)
    } else {
        Ok(Some(Difference::LastTick { held, recorded }))
    }
}

/// The first difference between a store and that of a record in what no rule of the building decides, and where there is
/// none the first place of a point that has another value. Both stores are only read.
pub fn first_found<S: Store, T: Store>(
    alloc: Global,
    building: &Building,
    store: &mut S,
    other: &mut T,
) -> Result<First, CompareFault>
    ensures { Compares (λ held recorded found. TellsFirst building.now held recorded found.difference found.otherwise)
        result (S.standing store.old) (S.standing store.new) (T.standing other.old) (T.standing other.new) }
{
    let difference = first_difference(building, store, other)?;
    if difference.is_some() {
        return Ok(First {
            difference,
            otherwise: None,
        });
    }
    let otherwise = first_place(alloc, building, store, other)?;
    Ok(First {
        difference,
        otherwise,
    })
}
