//! The places of a point after the deliveries of a record.
ghost use Rattle.std.specs.Prelude.{◌≡◌, ◌++◌, IfOk, List, OnOk};
ghost use Rattle.desk_why.specs.Authors.{places_of};
ghost use Rattle.desk_why.specs.AuthorsTable.{IsHeld};
ghost use Rattle.desk_why.specs.NextChanges.{next_changes};
ghost use Rattle.deliveries.specs.declared.delivery.Delivery.{Delivery as a_delivery};
ghost use Rattle.deliveries.specs.Delivered.{Holds};
ghost use Rattle.deliveries.specs.Events.{machine};
ghost use Rattle.store_memory.specs.Memory.{standing_of};
ghost use Rattle.points.specs.PriorityArray.{present_of};

use crate::author::Place;
use crate::authors::Authors;
use crate::scheduled::{ScheduledChange, next_changes};
use building::Building;
use deliveries::Delivery;
use points::Point;
use std::alloc::Global;
use store::{Store, StoreFault};
use store_memory::MemStore;

/// What a point presents, what its places hold, and when the schedules that target it change next.
#[derive(Drop)]
pub struct PointAtEnd {
    /// The present value.
    pub present: i64,
    /// The priority of the place that gives it: 1 to 16, or 0 for the relinquish default.
    pub priority: u8,
    /// The sixteen places, from priority 1 on.
    pub places: Vec<Place>,
    /// The next changes on the local day of the last tick, in the order of the schedules in the file.
    pub next: Vec<ScheduledChange>,
}

/// What a point of a building presents in a store, what its places hold by the table of authors, and for each schedule
/// that targets the point the next change on the local day of the last tick, after its time: `specs/NextChanges.antt`. The
/// store, which has the tables of all deliveries so far, is only read.
pub fn point_now(
    alloc: Global,
    building: &Building,
    store: &mut MemStore,
    authors: &Authors,
    point: &Point,
) -> Result<PointAtEnd, StoreFault>
    ensures same { OnOk result ((standing_of store.new).content ≡ (standing_of store.old).content) }
    ensures present { (deliveries : List a_delivery) → Holds building.now deliveries (standing_of store.old)
        → IfOk result (λ now. (now.present, now.priority)
        ≡ present_of ((machine building.now deliveries).places point.now.name) point.now.relinquish_default) }
    ensures places { (earlier deliveries : List a_delivery) → IsHeld building.now earlier deliveries authors.now point.now.name
        → IfOk result (λ now. now.places.items ≡ places_of building.now earlier deliveries point.now.name) }
    ensures next { (deliveries : List a_delivery) → Holds building.now deliveries (standing_of store.old)
        → IfOk result (λ now. now.next.items ≡ next_changes building.now deliveries point.now.name) }
{
    let (present, priority) = store.array(&point.name)?.present(point.relinquish_default);
    let places = authors.places(alloc, &point.name)?;
    let next = next_changes(alloc, store, building, &point.name)?;
    Ok(PointAtEnd {
        present,
        priority,
        places,
        next,
    })
}

/// What a point of a building presents after the deliveries of a record, and what put each value in its places, whatever
/// is repeated, late, differing, given up or parked there: `specs/Authors.antt`. And the next changes, as `point_now` has
/// them.
///
/// The deliveries are made to the store, which has the tables where the record begins. Of what its places hold then no
/// more is told than that it was put before the record.
pub fn point_at_end(
    alloc: Global,
    building: &Building,
    store: &mut MemStore,
    deliveries: &[Delivery],
    point: &Point,
) -> Result<PointAtEnd, StoreFault>
    ensures present { (earlier : List a_delivery) → Holds building.now earlier (standing_of store.old)
        → IfOk result (λ at_end. (at_end.present, at_end.priority)
        ≡ present_of ((machine building.now (earlier ++ deliveries.now)).places point.now.name) point.now.relinquish_default) }
    ensures places { (earlier : List a_delivery) → Holds building.now earlier (standing_of store.old)
        → IfOk result (λ at_end. at_end.places.items ≡ places_of building.now earlier deliveries.now point.now.name) }
    ensures next { (earlier : List a_delivery) → Holds building.now earlier (standing_of store.old)
        → IfOk result (λ at_end. at_end.next.items ≡ next_changes building.now (earlier ++ deliveries.now) point.now.name) }
{
    let mut authors = Authors::before_at(alloc, store, &point.name)?;
    for delivery in deliveries {
        authors.follow(alloc, store, building, delivery)?;
    }
    point_now(alloc, building, store, &authors, point)
}
