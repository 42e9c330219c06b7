//! What a panel's command or skip becomes in the straight list.
ghost use Rattle.std.specs.Prelude.{◌≡◌, ◌≤◌, ◌++◌, ◌∷◌, [], List, OnOk, map};
ghost use Rattle.deliveries.specs.declared.delivery.Delivery.{Delivery as a_delivery};
ghost use Rattle.deliveries.specs.declared.delivery.Delivery.TheVariants as delivery_of;
ghost use Rattle.deliveries.specs.Delivered.{Holds};
ghost use Rattle.store_memory.specs.Memory.{standing_of};
ghost use Rattle.points.specs.Run.{rows_between};
ghost use Rattle.window.specs.Drain.{contents_of};
ghost use Rattle.desk_straighten.specs.Kept.{HoldsSome};
ghost use Rattle.window.specs.Between.{asks_between};
ghost use Rattle.deliveries.specs.StraightList.{sent, straightened_by};

use crate::runs::push_run;
use building::Building;
use deliveries::Delivery;
use desk_commands::{deliver_command, deliver_skip};
use points::{Content, Name};
use std::alloc::Global;
use store::{Store, StoreFault};
use store_memory::MemStore;

// Pushes what a panel's next number has passed since it was `before`.
fn push_moved(
    store: &mut MemStore,
    building: &Building,
    straightened: &mut Vec<Delivery>,
    panel: &Name,
    before: u64,
) -> Result<(), StoreFault>
    requires holds { HoldsSome building.now (standing_of store.old) }
    requires rises { before ≤ (standing_of store.old).content.tables.next panel.now }
    ensures same { OnOk result ((standing_of store.new).content ≡ (standing_of store.old).content) }
    ensures straightens { let tables = (standing_of store.old).content.tables in
        OnOk result (straightened.new.items ≡ straightened.old.items ++ map (sent panel.now) (asks_between before
        (contents_of (rows_between (tables.row panel.now) before (tables.next panel.now))) (tables.next panel.now))) }
{
    let after = store.panel_next(panel)?;
    let run = store.commands_run(panel, before, after)?;
    push_run(straightened, panel, before, run.as_slice(), after)?;
    Ok(())
}

/// Delivers a command, and pushes what its panel's next number passed.
pub fn straighten_command(
    alloc: Global,
    store: &mut MemStore,
    building: &Building,
    straightened: &mut Vec<Delivery>,
    panel: &Name,
    number: i64,
    content: &Content,
) -> Result<(), StoreFault>
    requires some { HoldsSome building.now (standing_of store.old) }
    ensures holds { (earlier : List a_delivery) → Holds building.now earlier (standing_of store.old)
        → OnOk result (Holds building.now (earlier ++ delivery_of.Command panel.now number content.now ∷ []) (standing_of store.new)) }
    ensures straightens { (earlier : List a_delivery) → Holds building.now earlier (standing_of store.old)
        → OnOk result (straightened.new.items ≡ straightened.old.items
        ++ straightened_by building.now earlier (delivery_of.Command panel.now number content.now)) }
{
    let before = store.panel_next(panel)?;
    deliver_command(alloc, store, building, panel, number, content)?;
    push_moved(store, building, straightened, panel, before)
}

/// Delivers a skip, and pushes what its panel's next number passed.
pub fn straighten_skip(
    alloc: Global,
    store: &mut MemStore,
    building: &Building,
    straightened: &mut Vec<Delivery>,
    panel: &Name,
    upto: i64,
) -> Result<(), StoreFault>
    requires some { HoldsSome building.now (standing_of store.old) }
    ensures holds { (earlier : List a_delivery) → Holds building.now earlier (standing_of store.old)
        → OnOk result (Holds building.now (earlier ++ delivery_of.Skip panel.now upto ∷ []) (standing_of store.new)) }
    ensures straightens { (earlier : List a_delivery) → Holds building.now earlier (standing_of store.old)
        → OnOk result (straightened.new.items ≡ straightened.old.items
        ++ straightened_by building.now earlier (delivery_of.Skip panel.now upto)) }
{
    let before = store.panel_next(panel)?;
    deliver_skip(alloc, store, building, panel, upto)?;
    push_moved(store, building, straightened, panel, before)
}
