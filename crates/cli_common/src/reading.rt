//! The building of a file.

ghost use Rattle.std.specs.Prelude.{◌≡◌, List, ℕ, IfOk, Ok, Some, take};
ghost use Rattle.building.specs.Building.{contents_of};
ghost use Rattle.building.specs.BuildingFile.{building_of};
ghost use Rattle.cli_common.specs.Input.{bytes_of};

use crate::{Input, RunFault};
use building::Building;
use std::alloc::Global;
use std::io::Read;

/// The bytes of a file that are read: one more than a building file has at most.
const READ: u64 = 1_048_577;

/// The building of a file, or why there is none.
pub fn read_building<'a, B: Read + Drop>(
    alloc: Global,
    file: Input<'a, B>,
) -> Result<Building, RunFault<'a>>
    ensures { IfOk result (λ building. (bytes : List ℕ)
        → bytes_of B.remaining file.entry.reader ≡ Some bytes → building_of bytes ≡ Ok (contents_of building)) }
{
    let start = read_start(alloc, file)?;
    Ok(Building::read(alloc, start.as_slice())?)
}

/// The bytes of a file from its first on, one more than a building file has at most.
pub fn read_start<'a, B: Read + Drop>(
    alloc: Global,
    file: Input<'a, B>,
) -> Result<Vec<u8>, RunFault<'a>>
    ensures { IfOk result (λ start. (bytes : List ℕ)
        → bytes_of B.remaining file.entry.reader ≡ Some bytes → start.items ≡ take 1_048_577 bytes) }
{
    let path = file.path;
    let mut bytes = Vec::new(alloc);
    match file.reader {
        Ok(reader) => {
            let mut start = reader.take(READ);
            match start.read_to_end(&mut bytes) {
                Ok(_) => Ok(bytes),
                Err(error) => Err(RunFault::of_read(&error, path)),
            }
        }
        Err(error) => Err(RunFault::of_read(&error, path)),
    }
}
