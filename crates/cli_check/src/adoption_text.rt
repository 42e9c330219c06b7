//! What an adoption prints.
ghost use Rattle.std.specs.Prelude.{◌≡◌, ◌++◌, IfOk, OnOk, string_bytes};
ghost use Rattle.std.specs.List.{flat_map};
ghost use Rattle.cli_check.specs.AdoptionRun.{adoption_text, left_line, renamed_line, unused_line};

use desk_adopt::{Finding, Holdings, Notes, RenamedName, UnusedRenaming};
use std::alloc::{AllocError, Global};

fn push_renamed(alloc: Global, text: &mut String, renamed: &RenamedName) -> Result<(), AllocError>
    ensures { OnOk result (string_bytes text.new ≡ string_bytes text.old ++ renamed_line renamed.now) }
{
    let line = format!(in alloc; "renamed: {renamed}\n")?;
    text.push_str(line.as_str())?;
    Ok(())
}

fn push_left(alloc: Global, text: &mut String, finding: &Finding) -> Result<(), AllocError>
    ensures { OnOk result (string_bytes text.new ≡ string_bytes text.old ++ left_line finding.now) }
{
    let line = format!(in alloc; "left: {finding}\n")?;
    text.push_str(line.as_str())?;
    Ok(())
}

fn push_unused(alloc: Global, text: &mut String, unused: &UnusedRenaming) -> Result<(), AllocError>
    ensures { OnOk result (string_bytes text.new ≡ string_bytes text.old ++ unused_line unused.now) }
{
    let line = format!(in alloc; "unused: {unused}\n")?;
    text.push_str(line.as_str())?;
    Ok(())
}

fn push_all_renamed(alloc: Global, text: &mut String, all: &[RenamedName]) -> Result<(), AllocError>
    ensures { OnOk result (string_bytes text.new ≡ string_bytes text.old ++ flat_map renamed_line all.now) }
{
    for renamed in all {
        push_renamed(alloc, text, renamed)?;
    }
    Ok(())
}

fn push_all_left(alloc: Global, text: &mut String, all: &[Finding]) -> Result<(), AllocError>
    ensures { OnOk result (string_bytes text.new ≡ string_bytes text.old ++ flat_map left_line all.now) }
{
    for finding in all {
        push_left(alloc, text, finding)?;
    }
    Ok(())
}

fn push_all_unused(
    alloc: Global,
    text: &mut String,
    all: &[UnusedRenaming],
) -> Result<(), AllocError>
    ensures { OnOk result (string_bytes text.new ≡ string_bytes text.old ++ flat_map unused_line all.now) }
{
    for unused in all {
        push_unused(alloc, text, unused)?;
    }
    Ok(())
}

/// A line for each thing that is noted, and one for what the new tables hold.
pub fn adoption_text(
    alloc: Global,
    notes: &Notes,
    holdings: &Holdings,
) -> Result<String, AllocError>
    ensures { IfOk result (λ text. string_bytes text
        ≡ adoption_text notes.now.renamed.items notes.now.left.items notes.now.unused.items holdings.now) }
{
    let mut text = String::new(alloc);
    push_all_renamed(alloc, &mut text, notes.renamed.as_slice())?;
    push_all_left(alloc, &mut text, notes.left.as_slice())?;
    push_all_unused(alloc, &mut text, notes.unused.as_slice())?;
    let line = format!(in alloc; "{holdings}\n")?;
    text.push_str(line.as_str())?;
    Ok(text)
}
