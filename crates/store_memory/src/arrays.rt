//! The priority arrays of the points.
ghost use Rattle.std.specs.Prelude.{◌≡◌, if◌then◌else◌, IfOk, IsSome, OnOk, None};
ghost use Rattle.std.specs.List.{All};
ghost use Rattle.std.specs.Str.{bytes_eq};
ghost use Rattle.store.specs.Change.{IsPlace, with_each, with_place};
ghost use Rattle.store_memory.specs.Held.{array_at, places_of, stands_point};
ghost use Rattle.store.specs.Listed.{AreTexts};
ghost use Rattle.store_memory.specs.Slots.{IsStanding};
ghost use Rattle.points.specs.Texts.{Text};

use crate::found_last::{find, index_of};
use indexmap::IndexMap;
use points::{LOWEST_PRIORITY, Name, PriorityArray};
use std::alloc::{AllocError, Global};
use store::PlaceValue;

/// The priority arrays of points. A point without values may have an array too, which makes room for them.
#[derive(Drop)]
pub struct Arrays {
    arrays: IndexMap<Name, PriorityArray>,
    // The index of the array that was found last.
    last: usize,
}

fn has_value(array: &PriorityArray) -> bool
    ensures { result ≡ stands_point array.now }
{
    for priority in 1..=LOWEST_PRIORITY {
        if array.value_at(priority).is_some() {
            return true;
        }
    }
    false
}

impl Arrays {
    /// No point has a value.
    pub fn new(alloc: Global) -> Self
        ensures { (point : Text) → array_at result point ≡ None }
    {
        Arrays {
            arrays: IndexMap::new(alloc),
            last: 0,
        }
    }

    /// The array of a point.
    pub fn array(&mut self, point: &Name) -> Result<PriorityArray, AllocError>
        ensures array { IfOk result (λ array. array ≡ places_of self.old point.now) }
        ensures same { self.new.arrays ≡ self.old.arrays }
    {
        match find(&self.arrays, &mut self.last, point) {
            Some(array) => array.clone(),
            None => Ok(PriorityArray::new()),
        }
    }

    /// The points that have a value.
    pub fn names(&self, alloc: Global) -> Result<Vec<Name>, AllocError>
        ensures { IfOk result (λ names. AreTexts (λ point. IsStanding stands_point (array_at self.now point)) names.items) }
    {
        let mut names = Vec::new(alloc);
        for (name, array) in &self.arrays {
            if has_value(array) {
                names.push(*name)?;
            }
        }
        names.sort_unstable();
        Ok(names)
    }

    // Makes an array for a point that has none.
    fn make_array(&mut self, point: &Name) -> Result<(), AllocError>
        ensures room { OnOk result (IsSome (array_at self.new point.now)) }
        ensures stays { (q : Text) → IsSome (array_at self.old q) → IsSome (array_at self.new q) }
        ensures same { (q : Text) → places_of self.new q ≡ places_of self.old q }
    {
        if find(&self.arrays, &mut self.last, point).is_none() {
            self.arrays.insert(*point, PriorityArray::new())?;
        }
        Ok(())
    }

    /// Keeps an array of a point, in place of any that it had.
    pub fn keep(&mut self, point: &Name, array: PriorityArray) -> Result<(), AllocError>
        ensures { OnOk result ((q : Text) → places_of self.new q ≡ (if bytes_eq point.now q then array else places_of self.old q)) }
    {
        self.arrays.insert(*point, array)?;
        Ok(())
    }

    /// Makes room for values in places.
    pub fn make_room(&mut self, places: &[PlaceValue]) -> Result<(), AllocError>
        ensures room { OnOk result (All (λ item. IsSome (array_at self.new item.point)) places.now) }
        ensures same { (q : Text) → places_of self.new q ≡ places_of self.old q }
    {
        for item in places {
            self.make_array(&item.point)?;
        }
        Ok(())
    }

    fn set_place(&mut self, item: &PlaceValue)
        requires room { IsSome (array_at self.old item.now.point) }
        requires place { IsPlace item.now }
        ensures places { (q : Text) → places_of self.new q ≡ with_place item.now (places_of self.old) q }
        ensures stays { (q : Text) → IsSome (array_at self.old q) → IsSome (array_at self.new q) }
    {
        let Some(index) = index_of(&self.arrays, &mut self.last, &item.point) else {
            return;
        };
        if let Some(array) = self.arrays.get_index_mut(index) {
            array.set(item.priority, item.value);
        }
    }

    /// Puts values in places for which room was made.
    pub fn put(&mut self, places: &[PlaceValue])
        requires room { All (λ item. IsSome (array_at self.old item.point)) places.now }
        requires places { All IsPlace places.now }
        ensures { places_of self.new ≡ with_each with_place places.now (places_of self.old) }
    {
        for item in places {
            self.set_place(item);
        }
    }
}
