//! The tables of a base are read into memory.
ghost use Rattle.std.specs.Prelude.{◌≡◌, IfErr, IfOk, List, Ok};
ghost use Rattle.building.specs.Building.{Building as a_building};
ghost use Rattle.cli_base.specs.Base.{BeginsOn, IsCause, IsHonest, IsOnlyRead, IsRead, MayBeginOn};
ghost use Rattle.deliveries.specs.declared.delivery.Delivery.{Delivery as a_delivery};
ghost use Rattle.store_memory.specs.Memory.{standing_of};

use std::alloc::Global;
use store::{OpenFault, Store, StoreFault};
use store_copy::{CopyFault, copy_tables};
use store_memory::MemStore;

/// Why a base is not read.
#[derive(Clone, Copy, Debug)]
pub enum BaseFault {
    /// What has its tables is not opened.
    NotOpened(OpenFault),
    /// Its tables are not read, or find no room in memory.
    NotRead(StoreFault),
}

/// A base that was read: its tables in memory, and the store that was found, as the reading left it. Where there is no
/// base neither is there.
#[derive(Drop)]
pub struct Base<S: Drop> {
    pub tables: Option<MemStore>,
    pub store: Option<S>,
}

/// Reads the tables of a base into memory. The store that is found, if there is one, is only read and given back; where
/// its tables are not read, it is let go.
pub fn read_base<S: Store + Drop, N>(alloc: Global, finder: N) -> Result<Base<S>, BaseFault>
where
    N: FnOnce() -> Result<Option<S>, OpenFault>,
    requires { N.IsAlwaysCallable finder }
    ensures read { IfOk result (λ base. IsRead S.standing (N.post finder) base.store base.tables) }
    ensures begins { IfOk result (λ base. (building : a_building) (earlier : List a_delivery)
        → MayBeginOn S.standing (N.post finder) building earlier → IsHonest S.standing base.store
        → BeginsOn standing_of building earlier base.tables) }
    ensures cause { IfErr result (IsCause S.standing (N.post finder)) }
{
    match finder() {
        Ok(found) => copied(alloc, found),
        Err(fault) => Err(BaseFault::NotOpened(fault)),
    }
}

/// The store that was found, and its tables in memory.
fn copied<S: Store + Drop>(alloc: Global, found: Option<S>) -> Result<Base<S>, BaseFault>
    ensures only_read { IfOk result (λ base. IsOnlyRead S.standing found base.store) }
    ensures begins { IfOk result (λ base. (building : a_building) (earlier : List a_delivery)
        → BeginsOn S.standing building earlier found → IsHonest S.standing base.store
        → BeginsOn standing_of building earlier base.tables) }
    ensures cause { IfErr result (IsCause S.standing (λ it. it ≡ Ok found)) }
{
    let mut memory = MemStore::new(alloc);
    match found {
        Some(store) => {
            let mut store = store;
            match copy_tables(alloc, &mut store, &mut memory) {
                Ok(()) => Ok(Base {
                    tables: Some(memory),
                    store: Some(store),
                }),
                Err(CopyFault::Read(fault) | CopyFault::Written(fault)) => {
                    Err(BaseFault::NotRead(fault))
                }
                Err(CopyFault::OutOfRange) => Err(BaseFault::NotRead(StoreFault::BadRow)),
            }
        }
        None => Ok(Base {
            tables: None,
            store: None,
        }),
    }
}
