//! Why a line of a list of deliveries is not answered.

use std::alloc::{AllocError, AllocFailed};
use store::StoreFault;

/// Why a line is not answered.
#[derive(Clone, Copy)]
pub enum LineFault {
    /// The line is no delivery.
    NotDelivery,
    /// The delivery was not carried out, or its answer not written: memory was refused, or the store failed.
    NotDone(StoreFault),
}

impl From<AllocError> for LineFault {
    ghost use Rattle.std.specs.Prelude.{◌≡◌};
    ghost use Rattle.store.specs.declared.StoreFault.{StoreFault};
    ghost use Rattle.delivery_json.specs.declared.line_fault.LineFault.{LineFault};

    ghost from_gives = { λ _ fault. fault ≡ LineFault.NotDone StoreFault.NoMemory };

    fn from(_error: AllocError) -> LineFault {
        LineFault::NotDone(StoreFault::NoMemory)
    }
}

impl<T: Drop> From<AllocFailed<T>> for LineFault {
    ghost use Rattle.std.specs.Prelude.{◌≡◌};
    ghost use Rattle.store.specs.declared.StoreFault.{StoreFault};
    ghost use Rattle.delivery_json.specs.declared.line_fault.LineFault.{LineFault};

    ghost from_gives = { λ _ fault. fault ≡ LineFault.NotDone StoreFault.NoMemory };

    fn from(_error: AllocFailed<T>) -> LineFault {
        LineFault::NotDone(StoreFault::NoMemory)
    }
}

impl From<StoreFault> for LineFault {
    ghost use Rattle.std.specs.Prelude.{◌≡◌};
    ghost use Rattle.delivery_json.specs.declared.line_fault.LineFault.{LineFault};

    ghost from_gives = { λ fault given. given ≡ LineFault.NotDone fault };

    fn from(fault: StoreFault) -> LineFault {
        LineFault::NotDone(fault)
    }
}
