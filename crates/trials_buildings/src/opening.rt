//! A desk over a store.

use building::Building;
use desk::Desk;
use std::alloc::Global;
use store::{Store, StoreFault};

/// A desk over a store, without what is promised of it: a trial looks at values, and the promise would be taken along
/// through each of its proofs.
pub fn opened<S: Store + Drop>(
    alloc: Global,
    building: Building,
    store: S,
) -> Result<Desk<S>, (StoreFault, S)> {
    Desk::open(alloc, building, store)
}
