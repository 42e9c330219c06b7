//! The places once the schedules have settled.
ghost use Rattle.std.specs.Prelude.{◌≡◌, ◌&&◌, List, None, OnOk};
ghost use Rattle.std.specs.List.{list_any};
ghost use Rattle.desk_why.specs.Settling.{held_after_settling, held_by_schedule, held_or};
ghost use Rattle.desk_why.specs.Steps.{Becomes, put_where, today_of};
ghost use Rattle.deliveries.specs.Machine.{now_of};
ghost use Rattle.deliveries.specs.SettlingLaws.{is_due_at, last_of, leaves_at};
ghost use Rattle.store_memory.specs.Memory.{standing_of};
ghost use Rattle.desk_settling.specs.Calendars.{Tells, with_items};
ghost use Rattle.desk_settling.specs.Settled.{falls_quiet, is_due, releases, value_of};
ghost use Rattle.sched.specs.Sources.{source_of};
ghost use Rattle.store.specs.Standing.{IsOpen};
ghost use Rattle.points.specs.Texts.{Text};

use crate::author::{Author, Held, Settling};
use crate::authors::Authors;
use building::{Building, NamedSchedule, OnLeave};
use desk_settling::calendars_today;
use local_times::LocalTime;
use sched::{Calendar, Source, source_of};
use std::alloc::Global;
use store::{ImportedEntry, Store, StoreFault};
use store_memory::MemStore;

/// The day and the time at which the schedules settle, with calendars that hold as those of the building do then.
#[derive(Drop)]
pub struct Today {
    pub calendars: Vec<Calendar>,
    pub local: LocalTime,
    pub settling: Settling,
}

// The value of a schedule.
fn value_now(schedule: &NamedSchedule, today: &Today) -> Option<i64>
    ensures { result ≡ value_of (today_of today.now) schedule.now }
{
    let calendars = today.calendars.as_slice();
    schedule
        .schedule
        .value_now(calendars, today.local.day, today.local.time)
}

// What gives it.
fn source_now(schedule: &NamedSchedule, today: &Today) -> Source
    ensures { result ≡ source_of schedule.now.schedule today.now.calendars.items today.now.local.day today.now.local.time }
{
    let calendars = today.calendars.as_slice();
    source_of(
        &schedule.schedule,
        calendars,
        today.local.day,
        today.local.time,
    )
}

// Whether a schedule that shows this is due.
#[tactic(auto, unfolding(desk_settling::specs::Settled::is_due))]
fn is_due(schedule: &NamedSchedule, shown: Option<Option<i64>>, today: &Today) -> bool
    ensures { result ≡ is_due (today_of today.now) (λ name. shown) schedule.now }
{
    schedule.schedule.active(today.local.day) && shown != Some(value_now(schedule, today))
}

fn releases(on_leave: OnLeave) -> bool
    ensures { result ≡ releases on_leave }
{
    match on_leave {
        OnLeave::Release => true,
        OnLeave::Stay => false,
    }
}

// Whether a schedule that shows this falls quiet, and releases its places.
#[tactic(auto, unfolding(desk_settling::specs::Settled::falls_quiet))]
fn leaves(schedule: &NamedSchedule, shown: Option<Option<i64>>, today: &Today) -> bool
    ensures { result ≡ (falls_quiet (today_of today.now) (λ name. shown) schedule.now && releases schedule.now.on_leave) }
{
    !schedule.schedule.active(today.local.day) && shown.is_some() && releases(schedule.on_leave)
}

// What a due schedule puts.
fn held_by_schedule(schedule: &NamedSchedule, today: &Today) -> Option<Held>
    ensures { result ≡ held_by_schedule (today_of today.now) today.now.settling schedule.now }
{
    let value = value_now(schedule, today)?;
    let source = source_now(schedule, today);
    Some(Held {
        value,
        author: Author::Schedule {
            schedule: schedule.name,
            source,
            settling: today.settling,
        },
    })
}

// Clears the places of a schedule, if it leaves them.
fn leave(
    store: &mut MemStore,
    authors: &mut Authors,
    schedule: &NamedSchedule,
    today: &Today,
) -> Result<(), StoreFault>
    ensures same { OnOk result ((standing_of store.new).content ≡ (standing_of store.old).content) }
    ensures left { OnOk result (Becomes (put_where (λ point priority. leaves_at (today_of today.now)
        (standing_of store.old).content.tables.shown point priority schedule.now) None) authors.old authors.new) }
{
    let shown = store.shown(&schedule.name)?;
    if leaves(schedule, shown, today) {
        authors.put_at_targets(schedule, None)?;
    }
    Ok(())
}

// Clears the places of those schedules that leave them.
fn leave_each(
    store: &mut MemStore,
    authors: &mut Authors,
    schedules: &[NamedSchedule],
    today: &Today,
) -> Result<(), StoreFault>
    ensures same { OnOk result ((standing_of store.new).content ≡ (standing_of store.old).content) }
    ensures left { OnOk result (Becomes (put_where (λ point priority. list_any (leaves_at (today_of today.now)
        (standing_of store.old).content.tables.shown point priority) schedules.now) None) authors.old authors.new) }
{
    for schedule in schedules {
        leave(store, authors, schedule, today)?;
    }
    Ok(())
}

// Puts what a schedule puts, if it is due.
fn put_due(
    store: &mut MemStore,
    authors: &mut Authors,
    schedule: &NamedSchedule,
    today: &Today,
) -> Result<(), StoreFault>
    ensures same { OnOk result ((standing_of store.new).content ≡ (standing_of store.old).content) }
    ensures put { OnOk result (Becomes (put_where (λ point priority. is_due_at (today_of today.now)
        (standing_of store.old).content.tables.shown point priority schedule.now)
        (held_by_schedule (today_of today.now) today.now.settling schedule.now)) authors.old authors.new) }
{
    let shown = store.shown(&schedule.name)?;
    if is_due(schedule, shown, today) {
        let held = held_by_schedule(schedule, today);
        authors.put_at_targets(schedule, held.as_ref())?;
    }
    Ok(())
}

// Puts what the due ones of these schedules put, in their order.
fn put_each(
    store: &mut MemStore,
    authors: &mut Authors,
    schedules: &[NamedSchedule],
    today: &Today,
) -> Result<(), StoreFault>
    ensures same { OnOk result ((standing_of store.new).content ≡ (standing_of store.old).content) }
    ensures put { OnOk result (Becomes (λ point priority held. held_or (today_of today.now) today.now.settling
        (last_of (is_due_at (today_of today.now) (standing_of store.old).content.tables.shown point priority) schedules.now) held)
        authors.old authors.new) }
{
    for schedule in schedules {
        put_due(store, authors, schedule, today)?;
    }
    Ok(())
}

// Settles schedules: those that leave clear their places, and after that the due ones put.
fn settle_each(
    store: &mut MemStore,
    authors: &mut Authors,
    schedules: &[NamedSchedule],
    today: &Today,
) -> Result<(), StoreFault>
    ensures same { OnOk result ((standing_of store.new).content ≡ (standing_of store.old).content) }
    ensures settled { OnOk result (Becomes (held_after_settling (today_of today.now)
        (standing_of store.old).content.tables.shown today.now.settling schedules.now) authors.old authors.new) }
{
    leave_each(store, authors, schedules, today)?;
    put_each(store, authors, schedules, today)
}

/// Settles the schedules of a building at a local time, where these items are imported beside what the store holds. The
/// store is only read.
pub fn settle(
    alloc: Global,
    store: &mut MemStore,
    building: &Building,
    authors: &mut Authors,
    items: &[ImportedEntry],
    local: LocalTime,
    settling: Settling,
) -> Result<(), StoreFault>
    requires open { IsOpen (standing_of store.old) }
    ensures same { OnOk result ((standing_of store.new).content ≡ (standing_of store.old).content) }
    ensures settled { (imported : Text → List Text) → Tells (standing_of store.old).content.tables.imported imported
        → OnOk result (Becomes (held_after_settling (now_of building.now (with_items imported items.now) local)
        (standing_of store.old).content.tables.shown settling building.now.schedules) authors.old authors.new) }
{
    let calendars = calendars_today(alloc, store, building, items, local.day)?;
    let today = Today {
        calendars,
        local,
        settling,
    };
    settle_each(store, authors, building.schedules(), &today)
}
