//! Desks of the worked building.
use building::Building;
use desk::Desk;
use std::alloc::Global;
use std::test::Fail;
use store::Store;
use store_memory::MemStore;
use trials_buildings::{opened, worked_building};

fn building(alloc: Global) -> Result<Building, Fail> {
    let text = worked_building(alloc)?;
    Ok(Building::read(alloc, text.as_bytes())?)
}

/// A desk of the building over a store.
pub(crate) fn desk_over<S: Store + Drop>(alloc: Global, store: S) -> Result<Desk<S>, Fail> {
    let building = building(alloc)?;
    match opened(alloc, building, store) {
        Ok(desk) => Ok(desk),
        Err((fault, _store)) => Err(fault.into()),
    }
}

/// A desk of the building over empty tables in memory.
pub(crate) fn desk(alloc: Global) -> Result<Desk<MemStore>, Fail> {
    desk_over(alloc, MemStore::new(alloc))
}
