//! Why a building is not read.

use crate::file_fault::FileFault;
use std::alloc::{AllocError, AllocFailed};
use std::error::Error;
use std::fmt;

/// Why a building is not read.
#[derive(Clone, Copy, Debug)]
pub enum BuildingFault {
    /// The file is at fault.
    File(FileFault),
    /// Memory was refused.
    NoMemory,
}

impl fmt::Display for BuildingFault {
    ghost use Rattle.std.specs.Prelude.{Some};
    ghost use Rattle.building.specs.Answers.{refusal_text};

    ghost output = { λ fault. Some (refusal_text fault) };

    fn fmt<W: fmt::Write>(&self, f: &mut fmt::Formatter<W>) -> fmt::Result {
        match self {
            BuildingFault::File(fault) => write!(f, "{fault}"),
            BuildingFault::NoMemory => f.write_str("out of memory"),
        }
    }
}

impl Error for BuildingFault {}

impl From<FileFault> for BuildingFault {
    ghost use Rattle.std.specs.Prelude.{◌≡◌};
    ghost use Rattle.building.specs.declared.building_refusal.BuildingFault.{BuildingFault};

    ghost from_gives = { λ file fault. fault ≡ BuildingFault.File file };

    fn from(fault: FileFault) -> BuildingFault {
        BuildingFault::File(fault)
    }
}

impl From<AllocError> for BuildingFault {
    ghost use Rattle.std.specs.Prelude.{◌≡◌};
    ghost use Rattle.building.specs.declared.building_refusal.BuildingFault.{BuildingFault};

    ghost from_gives = { λ _ fault. fault ≡ BuildingFault.NoMemory };

    fn from(_error: AllocError) -> BuildingFault {
        BuildingFault::NoMemory
    }
}

impl<T: Drop> From<AllocFailed<T>> for BuildingFault {
    ghost use Rattle.std.specs.Prelude.{◌≡◌};
    ghost use Rattle.building.specs.declared.building_refusal.BuildingFault.{BuildingFault};

    ghost from_gives = { λ _ fault. fault ≡ BuildingFault.NoMemory };

    fn from(_error: AllocFailed<T>) -> BuildingFault {
        BuildingFault::NoMemory
    }
}
