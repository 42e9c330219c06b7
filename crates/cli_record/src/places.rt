//! The values in the places of points.
ghost use Rattle.std.specs.Prelude.{◌≡◌, ◌++◌};
ghost use Rattle.std.specs.List.{flat_map};
ghost use Rattle.store.specs.Standing.{IsOpen};
ghost use Rattle.cli_record.specs.Compared.{Compares};
ghost use Rattle.cli_record.specs.Differences.{first_place, of_point};

use crate::adding::add_unless;
use crate::comparing::CompareFault;
use crate::difference::Difference;
use crate::same_row::is_same_value;
use building::Building;
use points::{LOWEST_PRIORITY, Name, Point, PriorityArray};
use std::alloc::Global;
use store::Store;

/// The priority arrays of a point.
fn arrays<S: Store, T: Store>(
    store: &mut S,
    other: &mut T,
    point: &Name,
) -> Result<(PriorityArray, PriorityArray), CompareFault>
    requires open { IsOpen (S.standing store.old) }
    ensures { Compares (λ held recorded both. (both.0 ≡ held.places point.now) × (both.1 ≡ recorded.places point.now))
        result (S.standing store.old) (S.standing store.new) (T.standing other.old) (T.standing other.new) }
{
    let held = store.array(point)?;
    match other.array(point) {
        Ok(recorded) => Ok((held, recorded)),
        Err(fault) => Err(CompareFault::Recorded(fault)),
    }
}

/// Adds where the places of a point differ, from 1 to 16.
fn compare_point<S: Store, T: Store>(
    found: &mut Vec<Difference>,
    store: &mut S,
    other: &mut T,
    point: &Point,
) -> Result<(), CompareFault>
    requires open { IsOpen (S.standing store.old) }
    ensures { Compares (λ held recorded _. found.new.items ≡ found.old.items ++ of_point held recorded point.now)
        result (S.standing store.old) (S.standing store.new) (T.standing other.old) (T.standing other.new) }
{
    let (held, recorded) = arrays(store, other, &point.name)?;
    for priority in 1..LOWEST_PRIORITY + 1 {
        let value = held.value_at(priority);
        let other_value = recorded.value_at(priority);
        let difference = Difference::Place {
            point: point.name,
            priority,
            held: value,
            recorded: other_value,
        };
        add_unless(found, is_same_value(value, other_value), difference)?;
    }
    Ok(())
}

/// The first place, in the order of the building's file, where points differ.
pub fn first_place<S: Store, T: Store>(
    alloc: Global,
    building: &Building,
    store: &mut S,
    other: &mut T,
) -> Result<Option<Difference>, CompareFault>
    requires open { IsOpen (S.standing store.old) }
    requires open_other { IsOpen (T.standing other.old) }
    ensures { Compares (λ held recorded found. found ≡ first_place building.now held recorded)
        result (S.standing store.old) (S.standing store.new) (T.standing other.old) (T.standing other.new) }
{
    let mut found = Vec::new(alloc);
    compare_points(&mut found, store, other, building.points())?;
    Ok(found.first().copied())
}

/// Adds where points differ, one after the other.
pub fn compare_points<S: Store, T: Store>(
    found: &mut Vec<Difference>,
    store: &mut S,
    other: &mut T,
    points: &[Point],
) -> Result<(), CompareFault>
    requires open { IsOpen (S.standing store.old) }
    requires open_other { IsOpen (T.standing other.old) }
    ensures { Compares (λ held recorded _. found.new.items ≡ found.old.items ++ flat_map (of_point held recorded) points.now)
        result (S.standing store.old) (S.standing store.new) (T.standing other.old) (T.standing other.new) }
{
    for point in points {
        compare_point(found, store, other, point)?;
    }
    Ok(())
}
