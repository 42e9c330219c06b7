//! The values in the places of points.
ghost use Rattle.std.specs.Prelude.{◌≡◌, ℕ, ◌≤◌, ◌&&◌, ◌==◌, if◌then◌else◌, None, IfOk, OnOk};
ghost use Rattle.std.specs.FinMap.{get};
ghost use Rattle.std.specs.List.{All};
ghost use Rattle.std.specs.Result.{result_err};
ghost use Rattle.std.specs.Str.{bytes_eq};
ghost use Rattle.points.specs.Texts.{Text};
ghost use Rattle.store.specs.Change.{IsPlace, with_each, with_place};
ghost use Rattle.store.specs.Standing.{IsOpen, Reads};
ghost use Rattle.store.specs.Tables.{no_tables};
ghost use Rattle.store_copy.specs.Named.{at_names, or_else};

use points::{LOWEST_PRIORITY, Name, PriorityArray};
use std::alloc::{AllocError, Global};
use store::{PlaceValue, Store, StoreFault};

/// Puts the value of a point's place last, if it has one.
fn add_place(
    places: &mut Vec<PlaceValue>,
    point: &Name,
    priority: u8,
    value: Option<i64>,
) -> Result<(), AllocError>
    requires at_least_1 { 1 ≤ priority }
    requires at_most_16 { priority ≤ 16 }
    ensures added { OnOk result ((q : Text) (p : ℕ) → get (with_each with_place places.new.items no_tables.places q) p
        ≡ (if bytes_eq point.now q && priority == p
        then or_else value (get (with_each with_place places.old.items no_tables.places q) p)
        else get (with_each with_place places.old.items no_tables.places q) p)) }
    ensures are_places { OnOk result (All IsPlace places.old.items → All IsPlace places.new.items) }
{
    if value.is_some() {
        places.push(PlaceValue {
            point: *point,
            priority,
            value,
        })?;
    }
    Ok(())
}

/// Puts the values of a point's array last.
fn add_array(
    places: &mut Vec<PlaceValue>,
    point: &Name,
    array: &PriorityArray,
) -> Result<(), AllocError>
    ensures added { OnOk result ((q : Text) (p : ℕ) → get (with_each with_place places.new.items no_tables.places q) p
        ≡ (if bytes_eq point.now q
        then or_else (get array.now p) (get (with_each with_place places.old.items no_tables.places q) p)
        else get (with_each with_place places.old.items no_tables.places q) p)) }
    ensures are_places { OnOk result (All IsPlace places.old.items → All IsPlace places.new.items) }
{
    for priority in 1..=LOWEST_PRIORITY {
        add_place(places, point, priority, array.value_at(priority))?;
    }
    Ok(())
}

/// The values in the places of points.
pub fn places_of<S: Store>(
    alloc: Global,
    store: &mut S,
    points: &[Name],
) -> Result<Vec<PlaceValue>, StoreFault>
    requires open { IsOpen (S.standing store.old) }
    ensures reads { Reads (result_err result) (S.standing store.old) (S.standing store.new) }
    ensures named { (S.standing store.new).is_honest → IfOk result (λ places. (q : Text) (p : ℕ)
        → get (with_each with_place places.items no_tables.places q) p
        ≡ at_names points.now (λ point. get ((S.standing store.old).content.tables.places point) p) None q) }
    ensures are_places { IfOk result (λ places. All IsPlace places.items) }
{
    let mut places = Vec::new(alloc);
    for point in points {
        let array = store.array(point)?;
        add_array(&mut places, point, &array)?;
    }
    Ok(places)
}
