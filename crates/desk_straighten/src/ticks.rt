//! What a tick becomes in the straight list.
ghost use Rattle.std.specs.Prelude.{◌≡◌, ◌++◌, ◌∷◌, [], List, OnOk};
ghost use Rattle.deliveries.specs.declared.delivery.Delivery.{Delivery as a_delivery};
ghost use Rattle.deliveries.specs.declared.delivery.Delivery.TheVariants as delivery_of;
ghost use Rattle.deliveries.specs.Delivered.{Holds};
ghost use Rattle.store_memory.specs.Memory.{standing_of};
ghost use Rattle.desk_straighten.specs.Steps.{is_ticked};
ghost use Rattle.deliveries.specs.StraightList.{straightened_by};

use building::Building;
use deliveries::{Delivery, Reply};
use desk_clock::deliver_tick;
use std::alloc::Global;
use store::StoreFault;
use store_memory::MemStore;

fn is_ticked(reply: &Reply) -> bool
    ensures { result ≡ is_ticked reply.now }
{
    matches!(reply, Reply::Ticked { .. })
}

/// Delivers a tick, and pushes it where it is acted on.
pub fn straighten_tick(
    alloc: Global,
    store: &mut MemStore,
    building: &Building,
    straightened: &mut Vec<Delivery>,
    at: i64,
) -> Result<(), StoreFault>
    ensures holds { (earlier : List a_delivery) → Holds building.now earlier (standing_of store.old)
        → OnOk result (Holds building.now (earlier ++ delivery_of.Tick at ∷ []) (standing_of store.new)) }
    ensures straightens { (earlier : List a_delivery) → Holds building.now earlier (standing_of store.old)
        → OnOk result (straightened.new.items ≡ straightened.old.items ++ straightened_by building.now earlier (delivery_of.Tick at)) }
{
    let reply = deliver_tick(alloc, store, building, at)?;
    if is_ticked(&reply) {
        straightened.push(Delivery::Tick { at })?;
    }
    Ok(())
}
