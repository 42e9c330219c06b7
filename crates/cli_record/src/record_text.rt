//! The text of a comparison with a record.
ghost use Rattle.std.specs.Prelude.{◌≡◌, ◌++◌, IfOk, OnOk, string_bytes};
ghost use Rattle.std.specs.List.{flat_map};
ghost use Rattle.cli_record.specs.RecordText.{difference_line, unmade_line, whole_line};

use crate::difference::Difference;
use std::alloc::{AllocError, Global};

fn push_difference(
    alloc: Global,
    text: &mut String,
    difference: &Difference,
) -> Result<(), AllocError>
    ensures { OnOk result (string_bytes text.new ≡ string_bytes text.old ++ difference_line difference.now) }
{
    let line = format!(in alloc; "{difference}\n")?;
    text.push_str(line.as_str())?;
    Ok(())
}

/// A line for each difference.
pub fn differences_text(alloc: Global, found: &[Difference]) -> Result<String, AllocError>
    ensures { IfOk result (λ text. string_bytes text ≡ flat_map difference_line found.now) }
{
    let mut text = String::new(alloc);
    for difference in found {
        push_difference(alloc, &mut text, difference)?;
    }
    Ok(text)
}

/// That the tables are those of so many deliveries.
pub fn whole_line(alloc: Global, count: usize) -> Result<String, AllocError>
    ensures { IfOk result (λ text. string_bytes text ≡ whole_line count) }
{
    format!(in alloc; "record: {count} deliveries\n")
}

/// That the tables are those of so many deliveries without the last.
pub fn unmade_line(alloc: Global, count: usize) -> Result<String, AllocError>
    ensures { IfOk result (λ text. string_bytes text ≡ unmade_line count) }
{
    format!(in alloc; "record: {count} deliveries, the last of which is not made yet\n")
}
