//! The values in the places of points.
ghost use Rattle.std.specs.Prelude.{◌≡◌, ℕ, if◌then◌else◌, None, IfOk, OnOk};
ghost use Rattle.std.specs.FinMap.{empty, get};
ghost use Rattle.std.specs.Result.{result_err};
ghost use Rattle.std.specs.Str.{bytes_eq};
ghost use Rattle.desk_adopt.specs.Adopted.{kept_value, no_places, suits};
ghost use Rattle.store_copy.specs.Named.{or_else};
ghost use Rattle.desk_adopt.specs.Renamed.{at_items, former};
ghost use Rattle.points.specs.declared.point.Point.{Point as a_point};
ghost use Rattle.store.specs.Change.{IsPlace, with_each, with_place};
ghost use Rattle.std.specs.List.{All};
ghost use Rattle.store.specs.Standing.{IsOpen, Reads};
ghost use Rattle.points.specs.Texts.{Text};

use crate::place_findings::is_written;
use crate::renaming::{Renaming, former_name};
use building::Building;
use points::{LOWEST_PRIORITY, Name, PriorityArray};
use std::alloc::{AllocError, Global};
use store::{PlaceValue, Store, StoreFault};

/// Whether a value lies in the point's kind, and a schedule or a panel writes to this place.
fn suits(building: &Building, point: &Name, priority: u8, value: i64) -> bool
    ensures { result ≡ suits building.now point.now priority value }
{
    match building.find_point(point) {
        Some(found) => found.kind.admits(value) && is_written(building, point, priority),
        None => false,
    }
}

/// What stays of a place's value.
fn kept_value(building: &Building, point: &Name, priority: u8, value: Option<i64>) -> Option<i64>
    ensures { result ≡ kept_value building.now point.now priority value }
{
    match value {
        Some(found) if suits(building, point, priority, found) => value,
        _ => None,
    }
}

/// Puts the values last that stay of a point's array.
fn keep_places(
    building: &Building,
    point: &Name,
    array: &PriorityArray,
    places: &mut Vec<PlaceValue>,
) -> Result<(), AllocError>
    ensures kept { OnOk result ((q : Text) (p : ℕ) → get (with_each with_place places.new.items no_places q) p
        ≡ (if bytes_eq point.now q
        then or_else (kept_value building.now point.now p (get array.now p)) (get (with_each with_place places.old.items no_places q) p)
        else get (with_each with_place places.old.items no_places q) p)) }
    ensures are_places { OnOk result (All IsPlace places.old.items → All IsPlace places.new.items) }
{
    for priority in 1..=LOWEST_PRIORITY {
        let value = kept_value(building, point, priority, array.value_at(priority));
        if value.is_some() {
            places.push(PlaceValue {
                point: *point,
                priority,
                value,
            })?;
        }
    }
    Ok(())
}

/// Puts the values last that stay of what a point of the building has in the tables.
fn adopt_point<S: Store>(
    store: &mut S,
    building: &Building,
    places: &mut Vec<PlaceValue>,
    renamings: &[Renaming],
    point: &Name,
) -> Result<(), StoreFault>
    requires open { IsOpen (S.standing store.old) }
    ensures reads { Reads (result_err result) (S.standing store.old) (S.standing store.new) }
    ensures kept { (S.standing store.new).is_honest → OnOk result ((q : Text) (p : ℕ)
        → get (with_each with_place places.new.items no_places q) p
        ≡ (if bytes_eq point.now q
        then or_else (kept_value building.now point.now p
        (get (former renamings.now (S.standing store.old).content.tables.places empty point.now) p))
        (get (with_each with_place places.old.items no_places q) p)
        else get (with_each with_place places.old.items no_places q) p)) }
    ensures are_places { OnOk result (All IsPlace places.old.items → All IsPlace places.new.items) }
{
    match former_name(renamings, point) {
        Some(former) => {
            let array = store.array(&former)?;
            keep_places(building, point, &array, places)?;
            Ok(())
        }
        None => Ok(()),
    }
}

/// The values in the places of the building's points, but for those that nothing writes or that lie outside their
/// kinds.
pub fn adopted_places<S: Store>(
    alloc: Global,
    store: &mut S,
    building: &Building,
    renamings: &[Renaming],
) -> Result<Vec<PlaceValue>, StoreFault>
    requires open { IsOpen (S.standing store.old) }
    ensures reads { Reads (result_err result) (S.standing store.old) (S.standing store.new) }
    ensures kept { (S.standing store.new).is_honest → IfOk result (λ places. (q : Text) (p : ℕ)
        → get (with_each with_place places.items no_places q) p
        ≡ at_items (λ (it : a_point). it.name) building.now.points
        (λ name. kept_value building.now name p (get (former renamings.now (S.standing store.old).content.tables.places empty name) p))
        None q) }
    ensures are_places { IfOk result (λ places. All IsPlace places.items) }
{
    let mut places = Vec::new(alloc);
    for point in building.points() {
        adopt_point(store, building, &mut places, renamings, &point.name)?;
    }
    Ok(places)
}
