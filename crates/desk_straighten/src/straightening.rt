//! The straight list of deliveries.
ghost use Rattle.std.specs.Prelude.{◌≡◌, ◌++◌, ◌∷◌, [], IfOk, List, OnOk};
ghost use Rattle.deliveries.specs.declared.delivery.Delivery.{Delivery as a_delivery};
ghost use Rattle.deliveries.specs.Delivered.{Holds};
ghost use Rattle.deliveries.specs.Laws.{HasDistinctSchedules};
ghost use Rattle.store_memory.specs.Memory.{standing_of};
ghost use Rattle.desk_straighten.specs.Kept.{HoldsSome};
ghost use Rattle.deliveries.specs.StraightLaws.{HasDistinctPanels, IsStraightOf};
ghost use Rattle.deliveries.specs.StraightList.{straight_list, straightened_by};

use crate::imports::straighten_import;
use crate::panel_asks::{straighten_command, straighten_skip};
use crate::parked_commands::push_parked;
use crate::ticks::straighten_tick;
use building::Building;
use deliveries::Delivery;
use std::alloc::{AllocError, Global};
use store::StoreFault;
use store_memory::MemStore;

// Delivers one delivery, and pushes what it becomes.
fn straighten_one(
    alloc: Global,
    store: &mut MemStore,
    building: &Building,
    straightened: &mut Vec<Delivery>,
    delivery: &Delivery,
) -> Result<(), StoreFault>
    requires some { HoldsSome building.now (standing_of store.old) }
    ensures holds { (earlier : List a_delivery) → Holds building.now earlier (standing_of store.old)
        → OnOk result (Holds building.now (earlier ++ delivery.now ∷ []) (standing_of store.new)) }
    ensures straightens { (earlier : List a_delivery) → Holds building.now earlier (standing_of store.old)
        → OnOk result (straightened.new.items ≡ straightened.old.items ++ straightened_by building.now earlier delivery.now) }
{
    match delivery {
        Delivery::Command {
            panel,
            number,
            content,
        } => straighten_command(
            alloc,
            store,
            building,
            straightened,
            panel,
            *number,
            content,
        ),
        Delivery::Skip { panel, upto } => straighten_skip(
            alloc,
            store,
            building,
            straightened,
            panel,
            *upto,
        ),
        Delivery::Tick { at } => straighten_tick(alloc, store, building, straightened, *at),
        Delivery::Import { rows } => straighten_import(
            alloc,
            store,
            building,
            straightened,
            rows.as_slice(),
        ),
    }
}

// Runs the deliveries over empty tables in memory, and collects what each becomes and the commands that stay parked.
fn straight_list(
    alloc: Global,
    building: &Building,
    deliveries: &[Delivery],
) -> Result<Vec<Delivery>, StoreFault>
    ensures list { IfOk result (λ straightened. straightened.items ≡ straight_list building.now deliveries.now) }
    ensures laws { HasDistinctSchedules building.now → HasDistinctPanels building.now
        → IfOk result (λ straightened. IsStraightOf building.now deliveries.now straightened.items) }
{
    let mut store = MemStore::new(alloc);
    let mut straightened = Vec::new(alloc);
    for delivery in deliveries {
        straighten_one(alloc, &mut store, building, &mut straightened, delivery)?;
    }
    for panel in building.panels() {
        push_parked(&mut store, building, &mut straightened, &panel.name)?;
    }
    Ok(straightened)
}

/// The straight list of deliveries to a building, whatever is repeated, late, differing, given up or parked in them:
/// each applied command once at the place of its application, one skip for each run of numbers that were given up, each
/// applied tick, each import cut to the rows that it added, and last, panel by panel in file order, the commands that
/// are still parked. It needs no tolerance, and leads to the same tables by the same events.
///
/// The deliveries are run over empty tables in memory. Refused only where an allocation fails.
pub fn straighten(
    alloc: Global,
    building: &Building,
    deliveries: &[Delivery],
) -> Result<Vec<Delivery>, AllocError>
    ensures list { IfOk result (λ straightened. straightened.items ≡ straight_list building.now deliveries.now) }
    ensures laws { IfOk result (λ straightened. IsStraightOf building.now deliveries.now straightened.items) }
{
    building.names_are_distinct();
    match straight_list(alloc, building, deliveries) {
        Ok(straightened) => Ok(straightened),
        // tables in memory have no other fault
        Err(_) => Err(AllocError),
    }
}
