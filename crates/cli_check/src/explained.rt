//! The building of a file, or a fault that is explained.
ghost use Rattle.std.specs.Prelude.{◌≡◌, List, ℕ, IfOk, Ok, Some};
ghost use Rattle.building.specs.Building.{contents_of};
ghost use Rattle.building.specs.BuildingFile.{building_of};
ghost use Rattle.cli_common.specs.Input.{bytes_of};

use crate::check_fault::CheckFault;
use crate::detail::Detail;
use building::{Building, BuildingFault, FileFault};
use building_explanations::explanation;
use cli_common::{Input, RunFault, read_start};
use std::alloc::Global;
use std::io::Read;

/// The building of a file, or why there is none, in this detail.
pub(crate) fn building_in<'a, B: Read + Drop>(
    alloc: Global,
    file: Input<'a, B>,
    detail: Detail,
) -> Result<Building, CheckFault<'a>>
    ensures { IfOk result (λ building. (bytes : List ℕ)
        → bytes_of B.remaining file.entry.reader ≡ Some bytes → building_of bytes ≡ Ok (contents_of building)) }
{
    let start = read_start(alloc, file)?;
    match Building::read(alloc, start.as_slice()) {
        Ok(building) => Ok(building),
        Err(fault) => Err(fault_in(alloc, start.as_slice(), fault, detail)),
    }
}

/// Why these bytes are no building, in this detail.
fn fault_in<'a>(
    alloc: Global,
    bytes: &[u8],
    fault: BuildingFault,
    detail: Detail,
) -> CheckFault<'a> {
    match (fault, detail) {
        (BuildingFault::File(fault), Detail::Explained) => explained(alloc, bytes, fault),
        _ => CheckFault::Run(RunFault::from(fault)),
    }
}

/// A fault with its explanation: without it where memory is refused.
fn explained<'a>(alloc: Global, bytes: &[u8], fault: FileFault) -> CheckFault<'a> {
    match explanation(alloc, bytes, &fault) {
        Ok(explanation) => CheckFault::Explained { fault, explanation },
        Err(_) => CheckFault::Run(RunFault::Building(fault)),
    }
}
