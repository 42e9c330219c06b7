//! What the schedules show.
ghost use Rattle.std.specs.Prelude.{◌≡◌, IfOk, IsSome, OnOk, None, is_some};
ghost use Rattle.std.specs.List.{All};
ghost use Rattle.store.specs.Change.{with_each, with_shown};
ghost use Rattle.store_memory.specs.Held.{shown_of, shown_slot};
ghost use Rattle.store.specs.Listed.{AreTexts};
ghost use Rattle.store_memory.specs.Slots.{IsStanding};
ghost use Rattle.points.specs.Texts.{Text};

use points::Name;
use std::alloc::{AllocError, Global};
use std::collections::HashMap;
use store::ShownValue;

/// What schedules show. A quiet schedule may have an entry too, which makes room for what it shows.
#[derive(Drop)]
pub struct ShownValues {
    values: HashMap<Name, Option<Option<i64>>>,
}

impl ShownValues {
    /// Every schedule is quiet.
    pub fn new(alloc: Global) -> Self
        ensures { (schedule : Text) → shown_slot result schedule ≡ None }
    {
        ShownValues {
            values: HashMap::new(alloc),
        }
    }

    /// What a schedule shows.
    pub fn shown(&self, schedule: &Name) -> Option<Option<i64>>
        ensures { result ≡ shown_of self.now schedule.now }
    {
        match self.values.get(schedule) {
            Some(shown) => *shown,
            None => None,
        }
    }

    /// The schedules that show something.
    pub fn names(&self, alloc: Global) -> Result<Vec<Name>, AllocError>
        ensures { IfOk result (λ names. AreTexts (λ schedule. IsStanding is_some (shown_slot self.now schedule)) names.items) }
    {
        let mut names = Vec::new(alloc);
        for (name, shown) in &self.values {
            if shown.is_some() {
                names.push(*name)?;
            }
        }
        names.sort_unstable();
        Ok(names)
    }

    // Makes an entry for a schedule that has none.
    fn make_slot(&mut self, schedule: &Name) -> Result<(), AllocError>
        ensures room { OnOk result (IsSome (shown_slot self.new schedule.now)) }
        ensures stays { (q : Text) → IsSome (shown_slot self.old q) → IsSome (shown_slot self.new q) }
        ensures same { (q : Text) → shown_of self.new q ≡ shown_of self.old q }
    {
        if !self.values.contains_key(schedule) {
            self.values.insert(*schedule, None)?;
        }
        Ok(())
    }

    /// Makes room for what schedules show.
    pub fn make_room(&mut self, shown: &[ShownValue]) -> Result<(), AllocError>
        ensures room { OnOk result (All (λ item. IsSome (shown_slot self.new item.schedule)) shown.now) }
        ensures same { (q : Text) → shown_of self.new q ≡ shown_of self.old q }
    {
        for item in shown {
            self.make_slot(&item.schedule)?;
        }
        Ok(())
    }

    fn set_shown(&mut self, item: &ShownValue)
        requires { IsSome (shown_slot self.old item.now.schedule) }
        ensures shown { (q : Text) → shown_of self.new q ≡ with_shown item.now (shown_of self.old) q }
        ensures stays { (q : Text) → IsSome (shown_slot self.old q) → IsSome (shown_slot self.new q) }
    {
        if let Some(slot) = self.values.get_mut(&item.schedule) {
            *slot = item.shown;
        }
    }

    /// Puts what schedules show, for which room was made.
    pub fn put(&mut self, shown: &[ShownValue])
        requires { All (λ item. IsSome (shown_slot self.old item.schedule)) shown.now }
        ensures { shown_of self.new ≡ with_each with_shown shown.now (shown_of self.old) }
    {
        for item in shown {
            self.set_shown(item);
        }
    }
}
