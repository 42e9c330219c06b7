//! When the schedules that target a point change next.
ghost use Rattle.std.specs.Prelude.{◌≡◌, IfOk, List, OnOk};
ghost use Rattle.std.specs.List.{filter_map};
ghost use Rattle.desk_why.specs.NextChanges.{change_at, change_of, changes_at, targets_point};
ghost use Rattle.deliveries.specs.Machine.{local_of};
ghost use Rattle.store_memory.specs.Memory.{standing_of};
ghost use Rattle.desk_settling.specs.Calendars.{Tells};
ghost use Rattle.desk_settling.specs.Turns.{now_at};
ghost use Rattle.points.specs.Texts.{Text};

use building::{Building, NamedSchedule};
use desk_settling::calendars_today;
use local_times::{LocalTime, local_time};
use points::Name;
use sched::{Calendar, NextChange, next_change};
use std::alloc::{AllocError, Global};
use store::{Store, StoreFault};
use store_memory::MemStore;

/// The next change of a schedule of the building.
#[derive(Clone, Copy)]
pub struct ScheduledChange {
    pub schedule: Name,
    pub change: NextChange,
}

fn targets_point(schedule: &NamedSchedule, point: &Name) -> bool
    ensures { result ≡ targets_point point.now schedule.now }
{
    schedule.targets.contains(point)
}

fn change_of(
    alloc: Global,
    schedule: &NamedSchedule,
    calendars: &[Calendar],
    local: &LocalTime,
) -> Result<Option<ScheduledChange>, AllocError>
    ensures { IfOk result (λ change. change ≡ change_of (now_at calendars.now local.now) schedule.now) }
{
    let found = next_change(alloc, &schedule.schedule, calendars, local.day, local.time)?;
    let Some(change) = found else {
        return Ok(None);
    };
    Ok(Some(ScheduledChange {
        schedule: schedule.name,
        change,
    }))
}

// The next change of a schedule, if it targets the point.
fn change_at(
    alloc: Global,
    schedule: &NamedSchedule,
    calendars: &[Calendar],
    local: &LocalTime,
    point: &Name,
) -> Result<Option<ScheduledChange>, AllocError>
    ensures { IfOk result (λ change. change ≡ change_at (now_at calendars.now local.now) point.now schedule.now) }
{
    if targets_point(schedule, point) {
        change_of(alloc, schedule, calendars, local)
    } else {
        Ok(None)
    }
}

// Those of the schedules that have one.
fn changes_of(
    alloc: Global,
    schedules: &[NamedSchedule],
    calendars: &[Calendar],
    local: &LocalTime,
    point: &Name,
) -> Result<Vec<ScheduledChange>, AllocError>
    ensures { IfOk result (λ changes. changes.items
        ≡ filter_map (change_at (now_at calendars.now local.now) point.now) schedules.now) }
{
    let mut changes = Vec::new(alloc);
    for schedule in schedules {
        let change = change_at(alloc, schedule, calendars, local, point)?;
        changes.extend_from_slice(change.as_slice())?;
    }
    Ok(changes)
}

fn local_of(building: &Building, moment: Option<i64>) -> Option<LocalTime>
    ensures { result ≡ local_of building.now moment }
{
    local_time(building.zone(), moment?)
}

/// The next changes of the schedules that target a point, on the local day of the last tick that the store holds and
/// after its time, with what is imported there: one for each schedule that has one, in the order of the file. The store
/// is only read.
pub fn next_changes(
    alloc: Global,
    store: &mut MemStore,
    building: &Building,
    point: &Name,
) -> Result<Vec<ScheduledChange>, StoreFault>
    ensures same { OnOk result ((standing_of store.new).content ≡ (standing_of store.old).content) }
    ensures changes { (imported : Text → List Text) → Tells (standing_of store.old).content.tables.imported imported
        → IfOk result (λ changes. changes.items ≡ changes_at building.now imported
        (local_of building.now (standing_of store.old).content.tables.last_tick) point.now) }
{
    let last = store.last_tick()?;
    let Some(local) = local_of(building, last) else {
        return Ok(Vec::new(alloc));
    };
    let calendars = calendars_today(alloc, store, building, &[], local.day)?;
    let schedules = building.schedules();
    Ok(changes_of(alloc, schedules, calendars.as_slice(), &local, point)?)
}
