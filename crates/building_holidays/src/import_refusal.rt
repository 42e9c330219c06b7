//! Why a holiday list is not read.

use crate::ImportFault;
use std::alloc::{AllocError, AllocFailed};
use std::error::Error;
use std::fmt;

/// Why a holiday list is not read.
#[derive(Clone, Copy, Debug)]
pub enum ImportRefusal {
    /// The list is at fault.
    Fault(ImportFault),
    /// Memory was refused.
    NoMemory,
}

impl fmt::Display for ImportRefusal {
    ghost use Rattle.std.specs.Prelude.{Some};
    ghost use Rattle.building_holidays.specs.ImportTexts.{refusal_text};

    ghost output = { λ refusal. Some (refusal_text refusal) };

    fn fmt<W: fmt::Write>(&self, f: &mut fmt::Formatter<W>) -> fmt::Result {
        match self {
            ImportRefusal::Fault(fault) => write!(f, "{fault}"),
            ImportRefusal::NoMemory => f.write_str("out of memory"),
        }
    }
}

impl Error for ImportRefusal {}

impl From<ImportFault> for ImportRefusal {
    ghost use Rattle.std.specs.Prelude.{◌≡◌};
    ghost use Rattle.building_holidays.specs.declared.import_refusal.ImportRefusal.{ImportRefusal};

    ghost from_gives = { λ fault refusal. refusal ≡ ImportRefusal.Fault fault };

    fn from(fault: ImportFault) -> ImportRefusal {
        ImportRefusal::Fault(fault)
    }
}

impl From<AllocError> for ImportRefusal {
    ghost use Rattle.std.specs.Prelude.{◌≡◌};
    ghost use Rattle.building_holidays.specs.declared.import_refusal.ImportRefusal.{ImportRefusal};

    ghost from_gives = { λ _ refusal. refusal ≡ ImportRefusal.NoMemory };

    fn from(_error: AllocError) -> ImportRefusal {
        ImportRefusal::NoMemory
    }
}

impl<T: Drop> From<AllocFailed<T>> for ImportRefusal {
    ghost use Rattle.std.specs.Prelude.{◌≡◌};
    ghost use Rattle.building_holidays.specs.declared.import_refusal.ImportRefusal.{ImportRefusal};

    ghost from_gives = { λ _ refusal. refusal ≡ ImportRefusal.NoMemory };

    fn from(_error: AllocFailed<T>) -> ImportRefusal {
        ImportRefusal::NoMemory
    }
}
