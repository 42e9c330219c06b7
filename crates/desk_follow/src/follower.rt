//! One who follows a record.
ghost use Rattle.std.specs.Prelude.{◌≡◌, ◌++◌, ◌∷◌, [], ℕ, IfErr, IfOk, List, OnOk, Some, slice_get, string_bytes};
ghost use Rattle.building.specs.Building.{Building as a_building};
ghost use Rattle.deliveries.specs.declared.delivery.Delivery.{Delivery as a_delivery};
ghost use Rattle.deliveries.specs.Delivered.{Holds};
ghost use Rattle.deliveries.specs.Events.{machine};
ghost use Rattle.deliveries.specs.Reply.{reply};
ghost use Rattle.deliveries.specs.Tables.{tables};
ghost use Rattle.desk.specs.DayReport.{report_text};
ghost use Rattle.desk.specs.PointState.{state_of};
ghost use Rattle.desk_follow.specs.Followed.{HasFollowed, IsWhy, point_text};
ghost use Rattle.desk_settling.specs.Calendars.{Tells};
ghost use Rattle.points.specs.Rights.{point_named};
ghost use Rattle.points.specs.Texts.{Text};
ghost use Rattle.store.specs.declared.fault.StoreFault.TheVariants.{NoMemory};
ghost use Rattle.store_memory.specs.Memory.{standing_of};

use building::Building;
use dates::Day;
use deliveries::{Delivery, Reply};
use desk::{PointState, day_report, read_point};
use desk_views::push_point_view;
use desk_why::{Authors, PointAtEnd, point_now};
use points::{Name, Point};
use std::alloc::Global;
use store::{Store, StoreFault};
use store_memory::MemStore;

/// One who follows a record of a building: the tables after its deliveries so far, with what put each value in its place.
#[derive(Drop)]
pub struct Follower {
    store: MemStore,
    authors: Authors,
    count: u64,
}

impl Follower {
    /// Begins where a record begins, over the tables that a store has there.
    pub fn begin(
        alloc: Global,
        building: &Building,
        store: MemStore,
    ) -> Result<Follower, StoreFault>
        ensures { (earlier : List a_delivery) → Holds building.now earlier (standing_of store)
            → IfOk result (HasFollowed building.now earlier []) }
    {
        let mut store = store;
        let authors = Authors::before(alloc, building, &mut store)?;
        Ok(Follower {
            store,
            authors,
            count: 0,
        })
    }

    /// Acts on one delivery more of the record, and answers what the desk answers to it. After a fault nothing is known of
    /// what it holds.
    pub fn follow(
        &mut self,
        alloc: Global,
        building: &Building,
        delivery: &Delivery,
    ) -> Result<Reply, StoreFault>
        ensures replies { (earlier deliveries : List a_delivery) → HasFollowed building.now earlier deliveries self.old
            → IfOk result (λ reported. reported ≡ reply building.now (earlier ++ deliveries) delivery.now) }
        ensures follows { (earlier deliveries : List a_delivery) → HasFollowed building.now earlier deliveries self.old
            → OnOk result (HasFollowed building.now earlier (deliveries ++ delivery.now ∷ []) self.new) }
    {
        let reply = self
            .authors
            .follow(alloc, &mut self.store, building, delivery)?;
        self.count = self.count.saturating_add(1);
        Ok(reply)
    }

    /// How many deliveries of the record it has acted on; the count stays at its greatest value.
    pub fn count(&self) -> u64
        ensures { result ≡ self.now.count }
    {
        self.count
    }

    /// The moment of the last tick, in hundredths of a second since 1970-01-01T00:00:00Z.
    pub fn last_tick(&mut self) -> Result<Option<i64>, StoreFault>
        ensures last { (building : a_building) (earlier deliveries : List a_delivery)
            → HasFollowed building earlier deliveries self.old
            → IfOk result (λ last. last ≡ (machine building (earlier ++ deliveries)).last_tick) }
        ensures cause { IfErr result (λ fault. fault ≡ NoMemory) }
        ensures kept { (building : a_building) (earlier deliveries : List a_delivery)
            → HasFollowed building earlier deliveries self.old → HasFollowed building earlier deliveries self.new }
    {
        self.store.last_tick()
    }

    /// What a point of the building has now; none for a name that the building lacks.
    pub fn point(
        &mut self,
        building: &Building,
        name: &Name,
    ) -> Result<Option<PointState>, StoreFault>
        ensures state { (earlier deliveries : List a_delivery) → HasFollowed building.now earlier deliveries self.old
            → IfOk result (λ state. state
            ≡ state_of ((tables building.now (earlier ++ deliveries)).places name.now) (point_named building.now.points name.now)) }
        ensures cause { IfErr result (λ fault. fault ≡ NoMemory) }
        ensures kept { (earlier deliveries : List a_delivery) → HasFollowed building.now earlier deliveries self.old
            → HasFollowed building.now earlier deliveries self.new }
    {
        read_point(&mut self.store, building, name)
    }

    /// The report of a day over the tables as they are.
    pub fn report(
        &mut self,
        alloc: Global,
        building: &Building,
        day: Day,
    ) -> Result<String, StoreFault>
        ensures text { (earlier deliveries : List a_delivery) → HasFollowed building.now earlier deliveries self.old
            → (imported : Text → List Text) → Tells (tables building.now (earlier ++ deliveries)).imported imported
            → IfOk result (λ text. string_bytes text
            ≡ report_text building.now imported (tables building.now (earlier ++ deliveries)).places day) }
        ensures cause { IfErr result (λ fault. fault ≡ NoMemory) }
        ensures kept { (earlier deliveries : List a_delivery) → HasFollowed building.now earlier deliveries self.old
            → HasFollowed building.now earlier deliveries self.new }
    {
        day_report(alloc, &mut self.store, building, day)
    }

    /// What a point of the building presents now, what its places hold and what put it there, and its next changes. After
    /// a fault nothing is known of what is held.
    pub fn why(
        &mut self,
        alloc: Global,
        building: &Building,
        point: &Point,
    ) -> Result<PointAtEnd, StoreFault>
        ensures why { (earlier deliveries : List a_delivery) → HasFollowed building.now earlier deliveries self.old
            → point_named building.now.points point.now.name ≡ Some point.now
            → IfOk result (IsWhy building.now earlier deliveries point.now) }
        ensures kept { (earlier deliveries : List a_delivery) → HasFollowed building.now earlier deliveries self.old
            → OnOk result (HasFollowed building.now earlier deliveries self.new) }
    {
        point_now(alloc, building, &mut self.store, &self.authors, point)
    }

    /// Writes what a point of the building presents now, and what put that there, as it stands in the list of all points.
    pub fn push_point(
        &mut self,
        alloc: Global,
        text: &mut String,
        building: &Building,
        point: &Point,
    ) -> Result<(), StoreFault>
        ensures writes { (earlier deliveries : List a_delivery) (index : ℕ) → HasFollowed building.now earlier deliveries self.old
            → slice_get building.now.points index ≡ Some point.now
            → OnOk result (string_bytes text.new ≡ string_bytes text.old ++ point_text building.now earlier deliveries point.now) }
        ensures cause { IfErr result (λ fault. fault ≡ NoMemory) }
        ensures kept { (earlier deliveries : List a_delivery) → HasFollowed building.now earlier deliveries self.old
            → HasFollowed building.now earlier deliveries self.new }
    {
        let (present, priority) = self
            .store
            .array(&point.name)?
            .present(point.relinquish_default);
        push_point_view(
            alloc,
            text,
            building,
            &self.authors,
            &point.name,
            present,
            priority,
        )?;
        Ok(())
    }
}
