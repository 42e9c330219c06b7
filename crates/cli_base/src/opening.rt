//! A desk over a base.
ghost use Rattle.std.specs.Prelude.{◌≡◌, IfErr, IfOk, List};
ghost use Rattle.building.specs.Building.{Building as a_building};
ghost use Rattle.cli_base.specs.Base.{BeginsOn, IsOfMemory};
ghost use Rattle.deliveries.specs.Delivered.{Holds};
ghost use Rattle.deliveries.specs.declared.delivery.Delivery.{Delivery as a_delivery};
ghost use Rattle.store.specs.declared.fault.StoreFault.TheVariants.{BadRow};
ghost use Rattle.store_memory.specs.Memory.{standing_of};

use building::Building;
use desk::Desk;
use std::alloc::Global;
use store::StoreFault;
use store_memory::MemStore;

/// The tables of a base, or empty ones where there is none.
fn tables_of(alloc: Global, base: Option<MemStore>) -> MemStore
    ensures { (building : a_building) (earlier : List a_delivery) → BeginsOn standing_of building earlier base
        → Holds building earlier (standing_of result) }
{
    match base {
        Some(tables) => tables,
        None => MemStore::new(alloc),
    }
}

/// A desk over the tables of a base, or over empty ones where there is none. No desk opens over tables that do not suit
/// the building.
pub fn desk_on(
    alloc: Global,
    building: Building,
    base: Option<MemStore>,
) -> Result<Desk<MemStore>, StoreFault>
    ensures building { IfOk result (λ desk. desk.building ≡ building) }
    ensures holds { (earlier : List a_delivery) → BeginsOn standing_of building earlier base
        → IfOk result (λ desk. Holds building earlier (standing_of desk.store)) }
    ensures own_tables { (earlier : List a_delivery) → BeginsOn standing_of building earlier base
        → IfErr result (λ fault. fault ≡ BadRow → ⊥) }
    ensures cause { IfErr result IsOfMemory }
{
    match Desk::open(alloc, building, tables_of(alloc, base)) {
        Ok(desk) => Ok(desk),
        Err((fault, _tables)) => Err(fault),
    }
}
