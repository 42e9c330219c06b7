//! What an import becomes in the straight list.
ghost use Rattle.std.specs.Prelude.{◌≡◌, ◌++◌, ◌∷◌, [], List, OnOk};
ghost use Rattle.deliveries.specs.declared.delivery.Delivery.{Delivery as a_delivery};
ghost use Rattle.deliveries.specs.declared.delivery.Delivery.TheVariants as delivery_of;
ghost use Rattle.deliveries.specs.Delivered.{Holds};
ghost use Rattle.store_memory.specs.Memory.{standing_of};
ghost use Rattle.desk_straighten.specs.Steps.{import_if, is_imported};
ghost use Rattle.deliveries.specs.StraightList.{straightened_by};

use crate::new_rows::rows_that_add;
use building::Building;
use deliveries::{Delivery, Reply};
use desk_clock::deliver_import;
use points::Listing;
use sched::CalendarEntry;
use std::alloc::{AllocError, Global};
use store::{Store, StoreFault};
use store_memory::MemStore;

fn is_imported(reply: &Reply) -> bool
    ensures { result ≡ is_imported reply.now }
{
    matches!(reply, Reply::Imported { .. })
}

// Pushes an import of these rows, if there are any and it was carried out.
fn push_import(
    straightened: &mut Vec<Delivery>,
    rows: Vec<CalendarEntry>,
    imported: bool,
) -> Result<(), AllocError>
    ensures { OnOk result (straightened.new.items ≡ straightened.old.items ++ import_if imported rows.items) }
{
    if imported && !rows.is_empty() {
        straightened.push(Delivery::Import {
            rows: Listing::from_vec(rows),
        })?;
    }
    Ok(())
}

/// Delivers an import, and pushes one of the rows that it added, if there are any.
pub fn straighten_import(
    alloc: Global,
    store: &mut MemStore,
    building: &Building,
    straightened: &mut Vec<Delivery>,
    rows: &[CalendarEntry],
) -> Result<(), StoreFault>
    ensures holds { (earlier : List a_delivery) → Holds building.now earlier (standing_of store.old)
        → OnOk result (Holds building.now (earlier ++ delivery_of.Import rows.now ∷ []) (standing_of store.new)) }
    ensures straightens { (earlier : List a_delivery) → Holds building.now earlier (standing_of store.old)
        → OnOk result (straightened.new.items ≡ straightened.old.items
        ++ straightened_by building.now earlier (delivery_of.Import rows.now)) }
{
    let _last = store.last_tick()?;
    let added = rows_that_add(alloc, store, building, rows)?;
    let reply = deliver_import(alloc, store, building, rows)?;
    push_import(straightened, added, is_imported(&reply))?;
    Ok(())
}
