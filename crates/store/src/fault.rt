//! Why a store did not do what it was asked.
use std::alloc::{AllocError, AllocFailed};
use std::error::Error;
use std::fmt;

/// Why a read or a commit of a store was not done. A fault is printed as its code.
#[derive(Clone, Copy, Debug, PartialEq, Eq)]
pub enum StoreFault {
    /// S1: memory was refused. Nothing changed, and the store goes on.
    NoMemory,
    /// S2: the device or the database failed in this call. The store is shut; opened again it holds what it
    /// held before the call, or that with the call's change.
    Failed,
    /// S3: the store was shut by an earlier failure. It is to be opened again.
    Shut,
    /// S5: a row is kept that cannot stand. Nothing changed.
    BadRow,
}

impl From<AllocError> for StoreFault {
    ghost use Rattle.std.specs.Prelude.{◌≡◌};
    ghost use Rattle.store.specs.declared.fault.StoreFault.TheVariants.{NoMemory};

    ghost from_gives = { λ _ fault. fault ≡ NoMemory };

    fn from(_refused: AllocError) -> StoreFault {
        StoreFault::NoMemory
    }
}

impl<T: Drop> From<AllocFailed<T>> for StoreFault {
    ghost use Rattle.std.specs.Prelude.{◌≡◌};
    ghost use Rattle.store.specs.declared.fault.StoreFault.TheVariants.{NoMemory};

    ghost from_gives = { λ _ fault. fault ≡ NoMemory };

    fn from(_refused: AllocFailed<T>) -> StoreFault {
        StoreFault::NoMemory
    }
}

impl fmt::Display for StoreFault {
    ghost use Rattle.std.specs.Prelude.{Some};
    ghost use Rattle.store.specs.FaultCode.{code_of};

    ghost output = { λ fault. Some (code_of fault) };

    fn fmt<W: fmt::Write>(&self, f: &mut fmt::Formatter<W>) -> fmt::Result {
        f.write_str(match self {
            StoreFault::NoMemory => "S1",
            StoreFault::Failed => "S2",
            StoreFault::Shut => "S3",
            StoreFault::BadRow => "S5",
        })
    }
}

impl Error for StoreFault {}
