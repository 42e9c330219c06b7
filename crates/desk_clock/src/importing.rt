//! Imports.
ghost use Rattle.std.specs.Prelude.{◌≡◌, false, List, None};
ghost use Rattle.std.specs.Result.{result_err};
ghost use Rattle.deliveries.specs.declared.delivery.Delivery.{Delivery as a_delivery};
ghost use Rattle.deliveries.specs.declared.delivery.Delivery.TheVariants as delivery_of;
ghost use Rattle.deliveries.specs.Delivered.{Delivers, Holds};
ghost use Rattle.deliveries.specs.Reply.{refused_record};
ghost use Rattle.desk_clock.specs.Today.{KeepsToday};
ghost use Rattle.desk_settling.specs.Kept.{AreSpans};
ghost use Rattle.store.specs.Standing.{ChangesOnce, Goes, IsOpen};

use crate::adding::added_items;
use crate::changing::{local_of, settled_change};
use building::Building;
use deliveries::{Reply, refused_record};
use desk_settling::Kept;
use sched::CalendarEntry;
use std::alloc::Global;
use store::{Store, StoreFault};

// Imports rows that have their calendars.
fn import<S: Store>(
    alloc: Global,
    store: &mut S,
    building: &Building,
    kept: &mut Kept,
    rows: &[CalendarEntry],
    last: Option<i64>,
) -> Result<Reply, StoreFault>
    requires open { IsOpen (S.standing store.old) }
    requires spans { AreSpans building.now kept.old }
    ensures goes { Goes (result_err result) (S.standing store.old) (S.standing store.new) }
    ensures changes_once { ChangesOnce (result_err result) (S.standing store.old) (S.standing store.new) }
    ensures delivers { (earlier : List a_delivery) → refused_record building.now rows.now ≡ None
        → last ≡ (S.standing store.old).content.tables.last_tick
        → (S.standing store.new).is_honest → Holds building.now earlier (S.standing store.old)
        → Delivers building.now earlier (delivery_of.Import rows.now) result (S.standing store.new) }
    ensures spans { AreSpans building.now kept.new }
    ensures today { KeepsToday building.now kept.old kept.new (S.standing store.old) (S.standing store.new) }
{
    // so that schedules which have settled write nothing more
    building.names_are_distinct();
    let items = added_items(alloc, store, building, rows)?;
    if items.is_empty() {
        return Ok(Reply::Imported {
            added: 0,
            known: rows.len() as u64,
            writes: 0,
        });
    }
    let added = items.len();
    let local = local_of(building, last);
    let change = settled_change(alloc, store, building, kept, items, local, None)?;
    match store.commit(&change) {
        Ok(()) => Ok(Reply::Imported {
            added: added as u64,
            known: rows.len().saturating_sub(added) as u64,
            writes: change.places.len() as u64,
        }),
        Err(fault) => Err(fault),
    }
}

/// Carries out an import and answers it, over what is kept of the day of the last tick: of whatever list the store
/// holds the tables, it then holds those of the list with this import after it. Where a row names no calendar of the
/// building, nothing is imported; where each row is known, nothing is written. It begins with a read, so that a store
/// that is shut answers before all else; what it changes it changes in one commit, its last call of the store. An
/// import that adds something keeps no day.
pub fn deliver_import_after<S: Store>(
    alloc: Global,
    store: &mut S,
    building: &Building,
    kept: &mut Kept,
    rows: &[CalendarEntry],
) -> Result<Reply, StoreFault>
    requires { AreSpans building.now kept.old }
    ensures goes { Goes (result_err result) (S.standing store.old) (S.standing store.new) }
    ensures changes_once { ChangesOnce (result_err result) (S.standing store.old) (S.standing store.new) }
    ensures delivers { (earlier : List a_delivery) → (S.standing store.new).is_honest → Holds building.now earlier (S.standing store.old)
        → Delivers building.now earlier (delivery_of.Import rows.now) result (S.standing store.new) }
    ensures spans { AreSpans building.now kept.new }
    ensures today { KeepsToday building.now kept.old kept.new (S.standing store.old) (S.standing store.new) }
{
    let last = store.last_tick()?;
    match refused_record(building, rows) {
        Some(record) => Ok(Reply::ImportRefused { record }),
        None => import(alloc, store, building, kept, rows, last),
    }
}

/// The same of an import alone, of whose day nothing is kept.
pub fn deliver_import<S: Store>(
    alloc: Global,
    store: &mut S,
    building: &Building,
    rows: &[CalendarEntry],
) -> Result<Reply, StoreFault>
    ensures goes { Goes (result_err result) (S.standing store.old) (S.standing store.new) }
    ensures changes_once { ChangesOnce (result_err result) (S.standing store.old) (S.standing store.new) }
    ensures delivers { (earlier : List a_delivery) → (S.standing store.new).is_honest → Holds building.now earlier (S.standing store.old)
        → Delivers building.now earlier (delivery_of.Import rows.now) result (S.standing store.new) }
{
    let mut nothing = Kept::new();
    deliver_import_after(alloc, store, building, &mut nothing, rows)
}
