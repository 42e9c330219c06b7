//! What is found where two sides are not the same.
ghost use Rattle.std.specs.Prelude.{◌≡◌, ◌++◌, OnOk};
ghost use Rattle.cli_record.specs.Unless.{unless};

use std::alloc::AllocError;

/// Adds what is found, unless both sides are the same. It is generic, since the prover has no plan for a list of
/// differences in a function that has nothing else.
pub fn add_unless<D: Drop>(found: &mut Vec<D>, same: bool, difference: D) -> Result<(), AllocError>
    ensures { OnOk result (found.new.items ≡ found.old.items ++ unless same difference) }
{
    if !same {
        found.push(difference)?;
    }
    Ok(())
}
