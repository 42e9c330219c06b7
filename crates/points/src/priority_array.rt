//! The sixteen places of a point.
ghost use Rattle.std.specs.Prelude.{◌≡◌, ◌≤◌};
ghost use Rattle.std.specs.FinMap as map;
ghost use Rattle.points.specs.PriorityArray.{HasSixteenPlaces, put, present_of};

use std::alloc::AllocError;
use std::marker::Model;

/// The lowest priority (19.2). A command that names none is at this one.
pub const LOWEST_PRIORITY: u8 = 16;

const PLACES: usize = 16;

/// The priority array of a point (19.2): sixteen places, 1 the highest and 16 the lowest, each with a
/// value or NULL. A contract sees it as the map from the priorities that have a value to these values.
#[derive(Debug, Drop)]
pub struct PriorityArray {
    places: [Option<i64>; PLACES],
}

impl Model for PriorityArray {
    ghost use Rattle.std.specs.Prelude.{◌≡◌, length, ℤ};
    ghost use Rattle.std.specs.Coded.{coded_ℕ, coded_ℤ};
    ghost use Rattle.std.specs.FinMap as map;
    ghost use Rattle.points.specs.PriorityArray.{Places};
    ghost use Rattle.points.specs.Numbered.{numbered};

    ghost Value = { Places };

    ghost coded = { map.code coded_ℕ coded_ℤ };

    ghost view = { λ array. map.from_sorted (numbered 1 array.places) };

    ghost invariant = { λ array. length array.places ≡ 16 };
}

impl PriorityArray {
    /// An array whose places are all NULL.
    pub fn new() -> Self
        ensures { result ≡ map.empty }
    {
        PriorityArray {
            places: [None; PLACES],
        }
    }

    /// Puts a value, or NULL, in the place of a priority from 1 to 16, and changes no other place.
    pub fn set(&mut self, priority: u8, value: Option<i64>)
        requires at_least_1 { 1 ≤ priority }
        requires at_most_16 { priority ≤ 16 }
        ensures { self.new ≡ put self.old priority value }
    {
        self.places[usize::from(priority - 1)] = value;
    }

    /// The value in the place of a priority from 1 to 16, if it is not NULL.
    pub fn value_at(&self, priority: u8) -> Option<i64>
        requires at_least_1 { 1 ≤ priority }
        requires at_most_16 { priority ≤ 16 }
        ensures value { result ≡ map.get self.now priority }
        ensures places { HasSixteenPlaces self.now }
    {
        let index = usize::from(priority - 1);
        self.places[index]
    }

    /// The present value, and the priority of the place that gives it: the value of the highest place that
    /// is not NULL, else the relinquish default, with priority 0 (this profile's choice).
    pub fn present(&self, relinquish_default: i64) -> (i64, u8)
        ensures present { result ≡ present_of self.now relinquish_default }
        ensures at_most_16 { result.1 ≤ 16 }
    {
        for priority in 1..=LOWEST_PRIORITY {
            if let Some(value) = self.value_at(priority) {
                return (value, priority);
            }
        }
        (relinquish_default, 0)
    }
}

/// A clone of a priority array takes no memory: it is always `Ok`.
impl Clone for PriorityArray {
    ghost is_clone = { λ array copy. copy ≡ array };

    fn clone(&self) -> Result<PriorityArray, AllocError> {
        Ok(PriorityArray {
            places: self.places,
        })
    }
}
