//! Ticks.
ghost use Rattle.std.specs.Prelude.{◌≡◌, false, List, Some, true};
ghost use Rattle.std.specs.Result.{result_err};
ghost use Rattle.deliveries.specs.declared.delivery.Delivery.{Delivery as a_delivery};
ghost use Rattle.deliveries.specs.declared.delivery.Delivery.TheVariants as delivery_of;
ghost use Rattle.deliveries.specs.Delivered.{Delivers, Holds};
ghost use Rattle.deliveries.specs.Events.{is_later, last_tick_of};
ghost use Rattle.local_times.specs.LocalTimes.{local_at};
ghost use Rattle.desk_clock.specs.Today.{KeepsToday};
ghost use Rattle.desk_settling.specs.Kept.{AreSpans, AreToday};
ghost use Rattle.store.specs.Standing.{ChangesOnce, Goes, IsOpen};

use crate::changing::{local_of, ticked_change};
use building::Building;
use deliveries::Reply;
use desk_settling::Kept;
use local_times::{LocalTime, local_time};
use std::alloc::Global;
use store::{Store, StoreFault};

// Whether a moment is later than the last tick.
fn is_later(last: Option<i64>, moment: i64) -> bool
    ensures { result ≡ is_later last moment }
{
    match last {
        Some(last) => last < moment,
        None => true,
    }
}

// Settles the schedules at a moment that is later than the last tick.
fn tick_at<S: Store>(
    alloc: Global,
    store: &mut S,
    building: &Building,
    kept: &mut Kept,
    last: Option<i64>,
    moment: i64,
    local: LocalTime,
) -> Result<Reply, StoreFault>
    requires open { IsOpen (S.standing store.old) }
    requires spans { AreSpans building.now kept.old }
    ensures goes { Goes (result_err result) (S.standing store.old) (S.standing store.new) }
    ensures changes_once { ChangesOnce (result_err result) (S.standing store.old) (S.standing store.new) }
    ensures delivers { (earlier : List a_delivery) → local_at building.now.zone moment ≡ Some local
        → last ≡ (S.standing store.old).content.tables.last_tick
        → is_later (last_tick_of building.now earlier) moment ≡ true
        → (S.standing store.new).is_honest → AreToday building.now (S.standing store.old).content.tables.imported kept.old
        → Holds building.now earlier (S.standing store.old)
        → Delivers building.now earlier (delivery_of.Tick moment) result (S.standing store.new) }
    ensures spans { AreSpans building.now kept.new }
    ensures today { KeepsToday building.now kept.old kept.new (S.standing store.old) (S.standing store.new) }
{
    // so that schedules which have settled write nothing more
    building.names_are_distinct();
    let since = local_of(building, last);
    let change = ticked_change(alloc, store, building, kept, moment, since, local)?;
    match store.commit(&change) {
        Ok(()) => Ok(Reply::Ticked {
            writes: change.places.len() as u64,
        }),
        Err(fault) => Err(fault),
    }
}

/// Carries out a tick and answers it, over what is kept of the day of the last one: of whatever list the store holds
/// the tables, it then holds those of the list with this tick after it. It begins with a read, so that a store that is
/// shut answers before all else; what it changes it changes in one commit, its last call of the store.
pub fn deliver_tick_after<S: Store>(
    alloc: Global,
    store: &mut S,
    building: &Building,
    kept: &mut Kept,
    moment: i64,
) -> Result<Reply, StoreFault>
    requires { AreSpans building.now kept.old }
    ensures goes { Goes (result_err result) (S.standing store.old) (S.standing store.new) }
    ensures changes_once { ChangesOnce (result_err result) (S.standing store.old) (S.standing store.new) }
    ensures delivers { (earlier : List a_delivery) → (S.standing store.new).is_honest
        → AreToday building.now (S.standing store.old).content.tables.imported kept.old
        → Holds building.now earlier (S.standing store.old)
        → Delivers building.now earlier (delivery_of.Tick moment) result (S.standing store.new) }
    ensures spans { AreSpans building.now kept.new }
    ensures today { KeepsToday building.now kept.old kept.new (S.standing store.old) (S.standing store.new) }
{
    let last = store.last_tick()?;
    let Some(local) = local_time(building.zone(), moment) else {
        return Ok(Reply::BadMoment);
    };
    if !is_later(last, moment) {
        return Ok(Reply::Old);
    }
    tick_at(alloc, store, building, kept, last, moment, local)
}

/// The same of a tick alone, of whose day nothing is kept.
pub fn deliver_tick<S: Store>(
    alloc: Global,
    store: &mut S,
    building: &Building,
    moment: i64,
) -> Result<Reply, StoreFault>
    ensures goes { Goes (result_err result) (S.standing store.old) (S.standing store.new) }
    ensures changes_once { ChangesOnce (result_err result) (S.standing store.old) (S.standing store.new) }
    ensures delivers { (earlier : List a_delivery) → (S.standing store.new).is_honest → Holds building.now earlier (S.standing store.old)
        → Delivers building.now earlier (delivery_of.Tick moment) result (S.standing store.new) }
{
    let mut nothing = Kept::new();
    deliver_tick_after(alloc, store, building, &mut nothing, moment)
}
