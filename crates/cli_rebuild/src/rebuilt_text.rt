//! The text of a database that is made from a record.
ghost use Rattle.std.specs.Prelude.{◌≡◌, ◌++◌, IfOk, OnOk, string_bytes};
ghost use Rattle.cli_rebuild.specs.Rebuilt.{rebuilt_text, torn_line};

use desk_adopt::Holdings;
use std::alloc::{AllocError, Global};

/// A line on what stands behind a record's last line end, unless nothing does.
fn torn_line(alloc: Global, torn: usize) -> Result<String, AllocError>
    ensures { IfOk result (λ text. string_bytes text ≡ torn_line torn) }
{
    if torn == 0 {
        return Ok(String::new(alloc));
    }
    format!(in alloc; "passed over: {torn} bytes behind the last line end\n")
}

/// What is passed over, and what the new tables hold.
pub fn rebuilt_text(alloc: Global, torn: usize, holdings: &Holdings) -> Result<String, AllocError>
    ensures { IfOk result (λ text. string_bytes text ≡ rebuilt_text torn holdings.now) }
{
    let mut text = torn_line(alloc, torn)?;
    let line = format!(in alloc; "{holdings}\n")?;
    text.push_str(line.as_str())?;
    Ok(text)
}
