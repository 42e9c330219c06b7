//! One delivery more, over the table of authors.
ghost use Rattle.std.specs.Prelude.{◌≡◌, ◌≤◌, ◌++◌, ◌∷◌, [], IfOk, List, OnOk, Some};
ghost use Rattle.desk_why.specs.Authors.{held_along, held_at_last};
ghost use Rattle.desk_why.specs.Settling.{held_at};
ghost use Rattle.desk_why.specs.Steps.{Becomes, moment_of};
ghost use Rattle.deliveries.specs.declared.delivery.Delivery.{Delivery as a_delivery};
ghost use Rattle.deliveries.specs.declared.delivery.Delivery.TheVariants as delivery_of;
ghost use Rattle.deliveries.specs.Delivered.{Holds};
ghost use Rattle.deliveries.specs.Events.{acted_on, is_later, machine};
ghost use Rattle.deliveries.specs.Machine.{local_of};
ghost use Rattle.deliveries.specs.Reply.{reply};
ghost use Rattle.desk_straighten.specs.Kept.{HoldsSome};
ghost use Rattle.store_memory.specs.Memory.{standing_of};
ghost use Rattle.points.specs.Run.{rows_between};
ghost use Rattle.desk_settling.specs.Calendars.{Tells, with_items};
ghost use Rattle.store.specs.Standing.{IsOpen};
ghost use Rattle.points.specs.Texts.{Text};

use crate::author::Settling;
use crate::authors::Authors;
use crate::commands::act_on_run;
use crate::settling::settle;
use building::Building;
use deliveries::{Delivery, Reply, refused_record};
use desk_clock::{added_items, deliver_import, deliver_tick};
use desk_commands::{deliver_command, deliver_skip};
use local_times::{LocalTime, local_time};
use points::{Content, Name, NumberedRow};
use sched::CalendarEntry;
use std::alloc::Global;
use store::{ImportedEntry, Store, StoreFault};
use store_memory::MemStore;

// The rows that a panel's next number has passed since it was `before`.
fn passed_rows(
    store: &mut MemStore,
    building: &Building,
    panel: &Name,
    before: u64,
) -> Result<Vec<NumberedRow>, StoreFault>
    ensures same { OnOk result ((standing_of store.new).content ≡ (standing_of store.old).content) }
    ensures rows { HoldsSome building.now (standing_of store.old) → let tables = (standing_of store.old).content.tables in
        before ≤ tables.next panel.now
        → IfOk result (λ run. run.items ≡ rows_between (tables.row panel.now) before (tables.next panel.now)) }
{
    let _building = building;
    let after = store.panel_next(panel)?;
    // a list's tables have no lesser one
    let from = before.min(after);
    let run = store.commands_run(panel, from, after)?;
    Ok(run)
}

// Delivers a command, and acts on what its panel's next number passed.
fn make_command(
    alloc: Global,
    store: &mut MemStore,
    building: &Building,
    authors: &mut Authors,
    panel: &Name,
    number: i64,
    content: &Content,
) -> Result<Reply, StoreFault>
    ensures replies { (earlier : List a_delivery) → Holds building.now earlier (standing_of store.old)
        → IfOk result (λ reported. reported ≡ reply building.now earlier (delivery_of.Command panel.now number content.now)) }
    ensures holds { (earlier : List a_delivery) → Holds building.now earlier (standing_of store.old)
        → OnOk result (Holds building.now (earlier ++ delivery_of.Command panel.now number content.now ∷ []) (standing_of store.new)) }
    ensures along { (earlier : List a_delivery) → Holds building.now earlier (standing_of store.old)
        → OnOk result (Becomes (held_along building.now (machine building.now earlier)
        (acted_on building.now earlier (delivery_of.Command panel.now number content.now))) authors.old authors.new) }
{
    let last = store.last_tick()?;
    let before = store.panel_next(panel)?;
    let reply = deliver_command(alloc, store, building, panel, number, content)?;
    let run = passed_rows(store, building, panel, before)?;
    act_on_run(authors, building, last, panel, run.as_slice())?;
    Ok(reply)
}

// Delivers a skip, and acts on what its panel's next number passed.
fn make_skip(
    alloc: Global,
    store: &mut MemStore,
    building: &Building,
    authors: &mut Authors,
    panel: &Name,
    upto: i64,
) -> Result<Reply, StoreFault>
    ensures replies { (earlier : List a_delivery) → Holds building.now earlier (standing_of store.old)
        → IfOk result (λ reported. reported ≡ reply building.now earlier (delivery_of.Skip panel.now upto)) }
    ensures holds { (earlier : List a_delivery) → Holds building.now earlier (standing_of store.old)
        → OnOk result (Holds building.now (earlier ++ delivery_of.Skip panel.now upto ∷ []) (standing_of store.new)) }
    ensures along { (earlier : List a_delivery) → Holds building.now earlier (standing_of store.old)
        → OnOk result (Becomes (held_along building.now (machine building.now earlier)
        (acted_on building.now earlier (delivery_of.Skip panel.now upto))) authors.old authors.new) }
{
    let last = store.last_tick()?;
    let before = store.panel_next(panel)?;
    let reply = deliver_skip(alloc, store, building, panel, upto)?;
    let run = passed_rows(store, building, panel, before)?;
    act_on_run(authors, building, last, panel, run.as_slice())?;
    Ok(reply)
}

// The moment at which the schedules settle.
fn moment_of(settling: Settling) -> i64
    ensures { result ≡ moment_of settling }
{
    match settling {
        Settling::Tick { at } => at,
        Settling::Import { after } => after,
    }
}

// The local time at which the schedules settle.
fn local_then(building: &Building, settling: Settling) -> Option<LocalTime>
    ensures { result ≡ local_of building.now (Some (moment_of settling)) }
{
    local_time(building.zone(), moment_of(settling))
}

// Settles the schedules at a moment, if it has a local time, with these items imported.
fn settle_at(
    alloc: Global,
    store: &mut MemStore,
    building: &Building,
    authors: &mut Authors,
    items: &[ImportedEntry],
    settling: Settling,
) -> Result<(), StoreFault>
    requires open { IsOpen (standing_of store.old) }
    ensures same { OnOk result ((standing_of store.new).content ≡ (standing_of store.old).content) }
    ensures settled { (imported : Text → List Text) → Tells (standing_of store.old).content.tables.imported imported
        → OnOk result (Becomes (held_at building.now (with_items imported items.now)
        (standing_of store.old).content.tables.shown settling (local_of building.now (Some (moment_of settling))))
        authors.old authors.new) }
{
    match local_then(building, settling) {
        Some(local) => settle(alloc, store, building, authors, items, local, settling),
        None => Ok(()),
    }
}

// Settles the schedules at the last tick, if there was one, with these items imported.
fn settle_at_last(
    alloc: Global,
    store: &mut MemStore,
    building: &Building,
    authors: &mut Authors,
    items: &[ImportedEntry],
    last: Option<i64>,
) -> Result<(), StoreFault>
    requires open { IsOpen (standing_of store.old) }
    ensures same { OnOk result ((standing_of store.new).content ≡ (standing_of store.old).content) }
    ensures settled { (imported : Text → List Text) → Tells (standing_of store.old).content.tables.imported imported
        → OnOk result (Becomes (held_at_last building.now (with_items imported items.now)
        (standing_of store.old).content.tables.shown last) authors.old authors.new) }
{
    match last {
        Some(after) => {
            let settling = Settling::Import { after };
            settle_at(alloc, store, building, authors, items, settling)
        }
        None => Ok(()),
    }
}

fn is_later(last: Option<i64>, moment: i64) -> bool
    ensures { result ≡ is_later last moment }
{
    match last {
        Some(last) => last < moment,
        None => true,
    }
}

// Settles the schedules at a tick, if it is later than the last one. The store is only read.
fn settle_tick(
    alloc: Global,
    store: &mut MemStore,
    building: &Building,
    authors: &mut Authors,
    at: i64,
) -> Result<(), StoreFault>
    ensures same { OnOk result ((standing_of store.new).content ≡ (standing_of store.old).content) }
    ensures along { (earlier : List a_delivery) → Holds building.now earlier (standing_of store.old)
        → OnOk result (Becomes (held_along building.now (machine building.now earlier)
        (acted_on building.now earlier (delivery_of.Tick at))) authors.old authors.new) }
{
    let last = store.last_tick()?;
    if !is_later(last, at) {
        return Ok(());
    }
    let settling = Settling::Tick { at };
    settle_at(alloc, store, building, authors, &[], settling)
}

// Settles the schedules at an import of which each row has its calendar. The store is only read.
fn settle_import(
    alloc: Global,
    store: &mut MemStore,
    building: &Building,
    authors: &mut Authors,
    rows: &[CalendarEntry],
) -> Result<(), StoreFault>
    ensures same { OnOk result ((standing_of store.new).content ≡ (standing_of store.old).content) }
    ensures along { (earlier : List a_delivery) → Holds building.now earlier (standing_of store.old)
        → OnOk result (Becomes (held_along building.now (machine building.now earlier)
        (acted_on building.now earlier (delivery_of.Import rows.now))) authors.old authors.new) }
{
    let last = store.last_tick()?;
    if refused_record(building, rows).is_some() {
        return Ok(());
    }
    let items = added_items(alloc, store, building, rows)?;
    settle_at_last(alloc, store, building, authors, items.as_slice(), last)?;
    Ok(())
}

/// Delivers one delivery more, with what each place holds after what it makes happen.
pub fn make_delivery(
    alloc: Global,
    store: &mut MemStore,
    building: &Building,
    authors: &mut Authors,
    delivery: &Delivery,
) -> Result<Reply, StoreFault>
    ensures replies { (earlier : List a_delivery) → Holds building.now earlier (standing_of store.old)
        → IfOk result (λ reported. reported ≡ reply building.now earlier delivery.now) }
    ensures holds { (earlier : List a_delivery) → Holds building.now earlier (standing_of store.old)
        → OnOk result (Holds building.now (earlier ++ delivery.now ∷ []) (standing_of store.new)) }
    ensures along { (earlier : List a_delivery) → Holds building.now earlier (standing_of store.old)
        → OnOk result (Becomes (held_along building.now (machine building.now earlier)
        (acted_on building.now earlier delivery.now)) authors.old authors.new) }
{
    match delivery {
        Delivery::Command {
            panel,
            number,
            content,
        } => make_command(alloc, store, building, authors, panel, *number, content),
        Delivery::Skip { panel, upto } => {
            make_skip(alloc, store, building, authors, panel, *upto)
        }
        Delivery::Tick { at } => {
            settle_tick(alloc, store, building, authors, *at)?;
            deliver_tick(alloc, store, building, *at)
        }
        Delivery::Import { rows } => {
            settle_import(alloc, store, building, authors, rows.as_slice())?;
            deliver_import(alloc, store, building, rows.as_slice())
        }
    }
}
