//! The desk.
ghost use Rattle.std.specs.Prelude.{◌≡◌, ◌<◌, ◌⊎◌, false, List, [], None, Some, IfErr, IfOk, length, string_bytes};
ghost use Rattle.std.specs.Bool.{IsTrue};
ghost use Rattle.std.specs.Result.{result_err};
ghost use Rattle.desk.specs.DayReport.{report_text};
ghost use Rattle.points.specs.Rights.{point_named};
ghost use Rattle.desk_settling.specs.Calendars.{Tells};
ghost use Rattle.desk_settling.specs.Kept.{AreSpans, AreToday};
ghost use Rattle.store.specs.declared.fault.StoreFault.TheVariants.{BadRow, NoMemory, Shut};
ghost use Rattle.store.specs.Standing.{ChangesOnce, Goes, Reads, sound};
ghost use Rattle.store.specs.Tables.{no_tables};
ghost use Rattle.points.specs.Texts.{Text};
ghost use Rattle.deliveries.specs.declared.delivery.Delivery.{Delivery as a_delivery};
ghost use Rattle.deliveries.specs.Delivered.{Delivers, Holds};
ghost use Rattle.desk.specs.Headline.{ChangesEach, Runs, Stands};
ghost use Rattle.desk.specs.Opening.{Opens};
ghost use Rattle.desk.specs.PointState.{state_of};

use crate::opening::look_over;
use crate::point_state::{PointState, read_point};
use crate::whole_report::day_report;
use building::Building;
use dates::Day;
use deliveries::{Delivery, Reply};
use desk_clock::{deliver_import_after, deliver_tick_after};
use desk_commands::{deliver_command, deliver_skip};
use desk_settling::Kept;
use points::Name;
use std::alloc::Global;
use store::{Store, StoreFault};

/// A desk of a building, over a store of its tables. Beside the store it keeps what was found of the day of the last
/// tick: which calendars hold on it, and of each schedule the span over which its value stands.
#[derive(Drop)]
pub struct Desk<S: Store + Drop> {
    alloc: Global,
    building: Building,
    store: S,
    kept: Kept,
    ghost spans: { AreSpans building kept },
    ghost today: { (S.standing store).is_honest → (S.standing store).is_shut ≡ false
        → AreToday building (S.standing store).content.tables.imported kept },
}

impl<S: Store + Drop> Desk<S> {
    /// A desk of a building over a store that has just been made, whose tables are empty. It reads nothing.
    pub fn new(alloc: Global, building: Building, store: S) -> Self
        requires empty { (S.standing store).content ≡ sound no_tables }
        ensures building { result.building ≡ building }
        ensures store { result.store ≡ store }
        ensures begins { Holds building [] (S.standing result.store) }
    {
        Desk {
            alloc,
            building,
            store,
            kept: Kept::new(),
        }
    }

    /// Opens a desk of a building over a store, which holds the tables of what was delivered so far: S5 where a
    /// name in them is not the building's, or where entries, the last tick or a next number cannot stand; so
    /// never where they are those of deliveries to this building. The store is only read, and is handed back
    /// with the fault. Over empty tables the desk begins with those of no deliveries.
    pub fn open(alloc: Global, building: Building, store: S) -> Result<Desk<S>, (StoreFault, S)>
        ensures building { IfOk result (λ desk. desk.building ≡ building) }
        ensures opened { IfOk result (λ desk. Opens building None (S.standing store) (S.standing desk.store)) }
        ensures begins { (S.standing store).content ≡ sound no_tables
            → IfOk result (λ desk. (S.standing desk.store).is_honest → Holds building [] (S.standing desk.store)) }
        ensures refused { IfErr result (λ failed. Opens building (Some failed.0) (S.standing store) (S.standing failed.1)) }
        ensures own_tables { (earlier : List a_delivery) → Holds building earlier (S.standing store)
            → IfErr result (λ failed. (S.standing failed.1).is_honest → failed.0 ≡ BadRow → ⊥) }
    {
        let mut store = store;
        // what a building that was read says of its schedules
        let _sound = building.schedules();
        match look_over(&mut store, &building) {
            Ok(()) => Ok(Desk {
                alloc,
                building,
                store,
                kept: Kept::new(),
            }),
            Err(fault) => Err((fault, store)),
        }
    }

    /// The building that the desk was opened with.
    pub fn building(&self) -> &Building
        ensures { result.now ≡ self.now.building }
    {
        &self.building
    }

    /// The store, as it stands.
    pub fn into_store(self) -> S
        ensures { result ≡ self.store }
    {
        self.store
    }

    /// The building and the store, as they stand.
    pub fn into_parts(self) -> (Building, S)
        ensures building { result.0 ≡ self.building }
        ensures store { result.1 ≡ self.store }
    {
        (self.building, self.store)
    }

    /// How often a schedule was evaluated since the desk was opened; the count stays at its greatest value. A schedule
    /// whose value stands over the time of a tick is not evaluated again.
    pub fn evaluations(&self) -> u64
        ensures { result ≡ self.now.kept.evaluations }
    {
        self.kept.evaluations()
    }

    /// Carries out one delivery and answers it: of whatever list the store holds the tables, it then holds those
    /// of the list with this delivery after it. A delivery begins with a read, so that a store that is shut
    /// answers before all else; what it changes it changes in one commit, its last call of the store. Whatever the
    /// store held, a delivery that is refused changes nothing.
    pub fn deliver(&mut self, delivery: &Delivery) -> Result<Reply, StoreFault>
        ensures goes { Goes (result_err result) (S.standing self.old.store) (S.standing self.new.store) }
        ensures changes_once { ChangesOnce (result_err result) (S.standing self.old.store) (S.standing self.new.store) }
        ensures delivers { (earlier : List a_delivery) → (S.standing self.new.store).is_honest
            → Holds self.old.building earlier (S.standing self.old.store)
            → Delivers self.old.building earlier delivery.now result (S.standing self.new.store) }
        ensures building { self.new.building ≡ self.old.building }
    {
        match delivery {
            Delivery::Command {
                panel,
                number,
                content,
            } => deliver_command(
                self.alloc,
                &mut self.store,
                &self.building,
                panel,
                *number,
                content,
            ),
            Delivery::Skip { panel, upto } => deliver_skip(
                self.alloc,
                &mut self.store,
                &self.building,
                panel,
                *upto,
            ),
            Delivery::Tick { at } => deliver_tick_after(
                self.alloc,
                &mut self.store,
                &self.building,
                &mut self.kept,
                *at,
            ),
            Delivery::Import { rows } => deliver_import_after(
                self.alloc,
                &mut self.store,
                &self.building,
                &mut self.kept,
                rows.as_slice(),
            ),
        }
    }

    /// Delivers a list, each delivery after those before it, up to a fault. What was answered stands. On a store that
    /// is shut the first delivery is answered S3, unless there is no memory for the replies.
    pub fn run(&mut self, deliveries: &[Delivery]) -> (Vec<Reply>, Option<StoreFault>)
        ensures headline { (earlier : List a_delivery) → (S.standing self.new.store).is_honest
            → Holds self.old.building earlier (S.standing self.old.store)
            → Runs self.old.building earlier deliveries.now result.0.items result.1 (S.standing self.new.store) }
        ensures stands { Stands result.1 (S.standing self.old.store) (S.standing self.new.store) }
        ensures changes_each { ChangesEach result.0.items result.1 (S.standing self.old.store) (S.standing self.new.store) }
        ensures shut { IsTrue (S.standing self.old.store).is_shut → 0 < length deliveries.now
            → (result.1 ≡ Some Shut) ⊎ (result.1 ≡ Some NoMemory) }
        ensures building { self.new.building ≡ self.old.building }
    {
        let mut replies = Vec::new(self.alloc);
        if replies.reserve(deliveries.len()).is_err() {
            return (replies, Some(StoreFault::NoMemory));
        }
        for delivery in deliveries {
            match self.deliver(delivery) {
                Ok(reply) => replies.push_reserved(reply),
                Err(fault) => return (replies, Some(fault)),
            }
        }
        (replies, None)
    }

    /// What a point of the building has now; none for a name that the building lacks.
    pub fn point(&mut self, name: &Name) -> Result<Option<PointState>, StoreFault>
        ensures reads { Reads (result_err result) (S.standing self.old.store) (S.standing self.new.store) }
        ensures state { (S.standing self.new.store).is_honest → IfOk result (λ state. state
            ≡ state_of ((S.standing self.old.store).content.tables.places name.now) (point_named self.old.building.points name.now)) }
        ensures building { self.new.building ≡ self.old.building }
    {
        read_point(&mut self.store, &self.building, name)
    }

    /// The report of a day over the tables as they are: when each schedule has which value, and how each point is.
    pub fn report(&mut self, day: Day) -> Result<String, StoreFault>
        ensures reads { Reads (result_err result) (S.standing self.old.store) (S.standing self.new.store) }
        ensures text { (S.standing self.new.store).is_honest → (imported : Text → List Text)
            → Tells (S.standing self.old.store).content.tables.imported imported
            → IfOk result (λ text. string_bytes text
            ≡ report_text self.old.building imported (S.standing self.old.store).content.tables.places day) }
        ensures building { self.new.building ≡ self.old.building }
    {
        day_report(self.alloc, &mut self.store, &self.building, day)
    }
}
