//! The change that a tick or an import makes.
ghost use Rattle.std.specs.Prelude.{◌≡◌, [], Bool, IfOk, List, Some};
ghost use Rattle.std.specs.List.{All};
ghost use Rattle.std.specs.Result.{result_err};
ghost use Rattle.deliveries.specs.Clocked.{Settles};
ghost use Rattle.deliveries.specs.Machine.{local_of, changes_shown_at, writes_at};
ghost use Rattle.building.specs.Building.{Building as a_building};
ghost use Rattle.desk_settling.specs.Calendars.{Tells, with_items};
ghost use Rattle.desk_settling.specs.Kept.{AreSpans, AreToday};
ghost use Rattle.store.specs.Change.{CanStand, IsPlace};
ghost use Rattle.store.specs.Standing.{IsOpen, Reads};
ghost use Rattle.points.specs.Texts.{Text};

use building::Building;
use desk_settling::{Kept, Settlement, settle, settle_again};
use local_times::{LocalTime, local_time};
use std::alloc::Global;
use store::{Change, ImportedEntry, Store, StoreFault};

// What the schedules write and show at a local time, if there is one. No day is kept.
fn settle_at<S: Store>(
    alloc: Global,
    store: &mut S,
    building: &Building,
    kept: &mut Kept,
    items: &[ImportedEntry],
    local: Option<LocalTime>,
) -> Result<Settlement, StoreFault>
    requires open { IsOpen (S.standing store.old) }
    ensures reads { Reads (result_err result) (S.standing store.old) (S.standing store.new) }
    ensures places { (S.standing store.new).is_honest → (imported : Text → List Text)
        → Tells (S.standing store.old).content.tables.imported imported
        → IfOk result (λ settlement. settlement.places.items
        ≡ writes_at building.now (with_items imported items.now) (S.standing store.old).content.tables.shown local) }
    ensures shown { (S.standing store.new).is_honest → (imported : Text → List Text)
        → Tells (S.standing store.old).content.tables.imported imported
        → IfOk result (λ settlement. settlement.shown.items
        ≡ changes_shown_at building.now (with_items imported items.now) (S.standing store.old).content.tables.shown local) }
    ensures placed { IfOk result (λ settlement. All IsPlace settlement.places.items) }
    ensures spans { (building : a_building) → AreSpans building kept.new }
    ensures today { (building : a_building) (table : Text → Text → Bool) → AreToday building table kept.new }
{
    kept.forget();
    match local {
        Some(local) => settle(alloc, store, building, kept, items, local),
        None => Ok(Settlement {
            places: Vec::new(alloc),
            shown: Vec::new(alloc),
        }),
    }
}

/// The change of what the schedules write and show at a local time, where there is one, with the entries that
/// are imported and the last tick, where it changes. The store is only read, and no day is kept.
pub fn settled_change<S: Store>(
    alloc: Global,
    store: &mut S,
    building: &Building,
    kept: &mut Kept,
    items: Vec<ImportedEntry>,
    local: Option<LocalTime>,
    last_tick: Option<i64>,
) -> Result<Change, StoreFault>
    requires open { IsOpen (S.standing store.old) }
    ensures reads { Reads (result_err result) (S.standing store.old) (S.standing store.new) }
    ensures settles { (S.standing store.new).is_honest → (imported : Text → List Text)
        → Tells (S.standing store.old).content.tables.imported imported
        → IfOk result (Settles building.now (with_items imported items.items) (S.standing store.old).content.tables.shown
        local items.items last_tick) }
    ensures stands { IfOk result CanStand }
    ensures spans { (building : a_building) → AreSpans building kept.new }
    ensures today { (building : a_building) (table : Text → Text → Bool) → AreToday building table kept.new }
{
    let settlement = settle_at(alloc, store, building, kept, items.as_slice(), local)?;
    let mut change = Change::new(alloc);
    change.places = settlement.places;
    change.shown = settlement.shown;
    change.imported = items;
    change.last_tick = last_tick;
    Ok(change)
}

/// The change of what the schedules write and show at a local time, with its moment as the last tick, over what is kept
/// of its day and since the local time of the last tick, if there was one. The store is only read.
pub fn ticked_change<S: Store>(
    alloc: Global,
    store: &mut S,
    building: &Building,
    kept: &mut Kept,
    moment: i64,
    since: Option<LocalTime>,
    local: LocalTime,
) -> Result<Change, StoreFault>
    requires open { IsOpen (S.standing store.old) }
    requires spans { AreSpans building.now kept.old }
    ensures reads { Reads (result_err result) (S.standing store.old) (S.standing store.new) }
    ensures settles { (S.standing store.new).is_honest
        → AreToday building.now (S.standing store.old).content.tables.imported kept.old
        → (imported : Text → List Text) → Tells (S.standing store.old).content.tables.imported imported
        → changes_shown_at building.now imported (S.standing store.old).content.tables.shown since ≡ []
        → IfOk result (Settles building.now imported (S.standing store.old).content.tables.shown (Some local) [] (Some moment)) }
    ensures imports { IfOk result (λ change. change.imported.items ≡ []) }
    ensures stands { IfOk result CanStand }
    ensures spans { AreSpans building.now kept.new }
    ensures today { (S.standing store.new).is_honest
        → AreToday building.now (S.standing store.old).content.tables.imported kept.old
        → AreToday building.now (S.standing store.old).content.tables.imported kept.new }
{
    let settlement = settle_again(alloc, store, building, kept, since, local)?;
    let mut change = Change::new(alloc);
    change.places = settlement.places;
    change.shown = settlement.shown;
    change.last_tick = Some(moment);
    Ok(change)
}

/// The local time at the last tick, if there was one.
pub fn local_of(building: &Building, last: Option<i64>) -> Option<LocalTime>
    ensures { result ≡ local_of building.now last }
{
    match last {
        Some(moment) => local_time(building.zone(), moment),
        None => None,
    }
}
