//! What the places of a building's points hold, and what put it there.
ghost use Rattle.std.specs.Prelude.{◌≡◌, ◌≤◌, ◌++◌, ◌∷◌, [], ◌&&◌, ◌||◌, ◌==◌, Bool, false, IfOk, List, OnOk, map, option_copied};
ghost use Rattle.std.specs.Str.{bytes_eq};
ghost use Rattle.building.specs.Building.{Building as a_building};
ghost use Rattle.deliveries.specs.declared.delivery.Delivery.{Delivery as a_delivery};
ghost use Rattle.deliveries.specs.Delivered.{Holds};
ghost use Rattle.deliveries.specs.Reply.{reply};
ghost use Rattle.deliveries.specs.SettlingLaws.{targets};
ghost use Rattle.points.specs.PriorityArray.{HasSixteenPlaces, Places};
ghost use Rattle.points.specs.Texts.{Text};
ghost use Rattle.store_memory.specs.Memory.{standing_of};
ghost use Rattle.desk_why.specs.Authors.{held_before, priorities};
ghost use Rattle.desk_why.specs.AuthorsTable.{AreHeld, IsHeld, held_in};
ghost use Rattle.desk_why.specs.Steps.{Becomes, HaveBegun, put_where};

use crate::author::{Author, Held, Place};
use crate::steps::make_delivery;
use building::{Building, NamedSchedule};
use deliveries::{Delivery, Reply};
use points::{LOWEST_PRIORITY, Name, PriorityArray};
use std::alloc::{AllocError, Global};
use std::collections::HashMap;
use store::{Store, StoreFault};
use store_memory::MemStore;

/// The priorities of a point's places.
const PRIORITIES: [u8; 16] = [1, 2, 3, 4, 5, 6, 7, 8, 9, 10, 11, 12, 13, 14, 15, 16];

/// A place of a point.
#[derive(Clone, Copy, PartialEq, Eq, Hash)]
pub(crate) struct PlaceName {
    point: Name,
    priority: u8,
}

/// What the places of a building's points hold, and what put it there.
#[derive(Drop)]
pub struct Authors {
    // A place that holds nothing has no entry.
    held: HashMap<PlaceName, Held>,
}

// What a place holds where a record begins.
fn held_before(array: &PriorityArray, priority: u8) -> Option<Held>
    requires at_least_1 { 1 ≤ priority }
    requires at_most_16 { priority ≤ 16 }
    ensures held { result ≡ held_before array.now priority }
    ensures places { HasSixteenPlaces array.now }
{
    let value = array.value_at(priority)?;
    Some(Held {
        value,
        author: Author::BeforeRecord,
    })
}

impl Authors {
    // No place holds anything.
    fn new(alloc: Global) -> Self
        ensures { (places : Text → Places) → HaveBegun places (λ point. false) result }
    {
        Authors {
            held: HashMap::new(alloc),
        }
    }

    /// Where a record begins: what the places of the building's points hold in the store was put there before it. The
    /// store is only read.
    pub fn before(
        alloc: Global,
        building: &Building,
        store: &mut MemStore,
    ) -> Result<Authors, StoreFault>
        ensures same { OnOk result ((standing_of store.new).content ≡ (standing_of store.old).content) }
        ensures held { (earlier : List a_delivery) → Holds building.now earlier (standing_of store.old)
            → IfOk result (AreHeld building.now earlier []) }
    {
        let mut authors = Authors::new(alloc);
        for point in building.points() {
            authors.begin_at(store, &point.name)?;
        }
        Ok(authors)
    }

    /// The same of one point alone, whether it is one of the building's or not.
    pub(crate) fn before_at(
        alloc: Global,
        store: &mut MemStore,
        point: &Name,
    ) -> Result<Authors, StoreFault>
        ensures same { OnOk result ((standing_of store.new).content ≡ (standing_of store.old).content) }
        ensures held { (building : a_building) (earlier : List a_delivery) → Holds building earlier (standing_of store.old)
            → IfOk result (λ authors. IsHeld building earlier [] authors point.now) }
    {
        let mut authors = Authors::new(alloc);
        authors.begin_at(store, point)?;
        Ok(authors)
    }

    /// Delivers one delivery more, and has what the places hold then, at the cost of the places that it writes. After a
    /// fault nothing is known of the table.
    pub fn follow(
        &mut self,
        alloc: Global,
        store: &mut MemStore,
        building: &Building,
        delivery: &Delivery,
    ) -> Result<Reply, StoreFault>
        ensures replies { (earlier : List a_delivery) → Holds building.now earlier (standing_of store.old)
            → IfOk result (λ reported. reported ≡ reply building.now earlier delivery.now) }
        ensures holds { (earlier : List a_delivery) → Holds building.now earlier (standing_of store.old)
            → OnOk result (Holds building.now (earlier ++ delivery.now ∷ []) (standing_of store.new)) }
        ensures held { (earlier deliveries : List a_delivery) → Holds building.now (earlier ++ deliveries) (standing_of store.old)
            → AreHeld building.now earlier deliveries self.old
            → OnOk result (AreHeld building.now earlier (deliveries ++ delivery.now ∷ []) self.new) }
        ensures point { (earlier deliveries : List a_delivery) (point : Text)
            → Holds building.now (earlier ++ deliveries) (standing_of store.old)
            → IsHeld building.now earlier deliveries self.old point
            → OnOk result (IsHeld building.now earlier (deliveries ++ delivery.now ∷ []) self.new point) }
    {
        make_delivery(alloc, store, building, self, delivery)
    }

    /// What a place of a point of the building holds; nothing for a priority that is none.
    pub fn held(&self, point: &Name, priority: u8) -> Option<Held>
        ensures { result ≡ held_in self.now point.now priority }
    {
        let place = PlaceName {
            point: *point,
            priority,
        };
        self.held.get(&place).copied()
    }

    // A place with what it holds.
    fn place(&self, point: &Name, priority: u8) -> Place
        ensures { result ≡ record { priority = priority; held = held_in self.now point.now priority } }
    {
        Place {
            priority,
            held: self.held(point, priority),
        }
    }

    /// The sixteen places of a point, from priority 1 on.
    pub(crate) fn places(&self, alloc: Global, point: &Name) -> Result<Vec<Place>, AllocError>
        ensures { IfOk result (λ places. places.items ≡ map (λ priority.
            record { priority = priority; held = held_in self.now point.now priority }) priorities) }
    {
        PRIORITIES
            .iter()
            .map(|priority| self.place(point, *priority))
            .collect(alloc)
    }

    /// Puts something in a place, or nothing.
    pub(crate) fn put(
        &mut self,
        point: &Name,
        priority: u8,
        held: Option<&Held>,
    ) -> Result<(), AllocError>
        ensures { OnOk result (Becomes (put_where (λ q r. bytes_eq point.now q && priority == r) (option_copied held.entry)) self.old self.new) }
    {
        let place = PlaceName {
            point: *point,
            priority,
        };
        match held {
            Some(held) => {
                self.held.insert(place, *held)?;
            }
            None => {
                self.held.remove(&place);
            }
        }
        Ok(())
    }

    /// Puts the same in each place to which a schedule writes.
    pub(crate) fn put_at_targets(
        &mut self,
        schedule: &NamedSchedule,
        held: Option<&Held>,
    ) -> Result<(), AllocError>
        ensures { OnOk result (Becomes (put_where (λ point priority. targets point priority schedule.now) (option_copied held.entry))
            self.old self.new) }
    {
        for point in schedule.targets.as_slice() {
            self.put(point, schedule.priority, held)?;
        }
        Ok(())
    }

    // One point more, where a record begins.
    fn begin_at(&mut self, store: &mut MemStore, point: &Name) -> Result<(), StoreFault>
        ensures same { OnOk result ((standing_of store.new).content ≡ (standing_of store.old).content) }
        ensures begun { (test : Text → Bool) → HaveBegun (standing_of store.old).content.tables.places test self.old
            → OnOk result (HaveBegun (standing_of store.old).content.tables.places (λ q. test q || bytes_eq point.now q) self.new) }
    {
        let array = store.array(point)?;
        for priority in 1..=LOWEST_PRIORITY {
            self.put(point, priority, held_before(&array, priority).as_ref())?;
        }
        Ok(())
    }
}
