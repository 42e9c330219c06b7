//! The tree of a building file.

ghost use Rattle.std.specs.Prelude.{◌≡◌, ◌⊎◌};
ghost use Rattle.toml.specs.Errors.{IsMemory};
ghost use Rattle.toml.specs.Parse.{parse_document};
ghost use Rattle.toml.specs.View.{table_view};
ghost use Rattle.building.specs.Answers.{Answers};
ghost use Rattle.points.specs.FaultSteps.{or_fault, result_map};
ghost use Rattle.building.specs.BuildingFile.{no_toml, tree_of};

use crate::building_refusal::BuildingFault;
use crate::cause::Cause;
use crate::file_fault::FileFault;
use crate::key::Key;
use crate::location::Location;
use points::text_of;
use std::alloc::Global;
use toml::Table;

/// The bytes that a building file has at most (this profile's limit).
const LONGEST_FILE: usize = 1_048_576;

/// The tables of a file's bytes (B13, B1).
#[tactic(auto, unfolding(crate::specs::BuildingFile::tree_of))]
pub(crate) fn tree_of(alloc: Global, bytes: &[u8]) -> Result<Table, BuildingFault>
    ensures { Answers (tree_of bytes.now) (result_map table_view result) }
{
    if bytes.len() > LONGEST_FILE {
        return Err(Location::TOP.fault(Key::File, Cause::BeyondLimit).into());
    }
    let text = text_of(bytes).ok_or(no_toml())?;
    parsed(alloc, text)
}

fn no_toml() -> FileFault
    ensures { result ≡ no_toml }
{
    Location::TOP.fault(Key::File, Cause::NotToml)
}

/// The tables of a TOML text.
fn parsed(alloc: Global, text: &str) -> Result<Table, BuildingFault>
    ensures { Answers (or_fault no_toml (parse_document text.now)) (result_map table_view result) }
{
    match toml::table_from_str(alloc, text) {
        Ok(table) => Ok(table),
        Err(error) => Err(fault_of(error)),
    }
}

/// Why a text is no TOML.
fn fault_of(error: toml::de::Error) -> BuildingFault
    ensures { ((result ≡ BuildingFault.NoMemory) × IsMemory error)
        ⊎ ((result ≡ BuildingFault.File no_toml) × (¬ IsMemory error)) }
{
    if error.is_memory() {
        BuildingFault::NoMemory
    } else {
        BuildingFault::File(no_toml())
    }
}
