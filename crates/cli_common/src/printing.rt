//! Texts on the output.

ghost use Rattle.std.specs.Prelude.{OnOk};
ghost use Rattle.std.specs.Io.KnownBytes.{Appends, Keeps};
ghost use Rattle.points.specs.Beginnings.{AppendsStart};

use crate::RunFault;
use points::write_whole;
use std::io::Write;

/// Prints a text whole, or where the output fails a beginning of it; what `write_all` has printed by
/// then, std does not say.
pub fn print_text<'a, W: Write>(out: &mut W, text: &[u8]) -> Result<(), RunFault<'a>>
    ensures whole { OnOk result (Appends (W.contents out.old) (W.contents out.new) text.now) }
    ensures no_more { AppendsStart (W.contents out.old) (W.contents out.new) text.now }
{
    if write_whole(out, text) {
        Ok(())
    } else {
        Err(RunFault::OutputFailed)
    }
}

/// Flushes the output, which prints nothing more.
pub fn flush<'a, W: Write>(out: &mut W) -> Result<(), RunFault<'a>>
    ensures { Keeps (W.contents out.old) (W.contents out.new) }
{
    match out.flush() {
        Ok(()) => Ok(()),
        Err(_) => Err(RunFault::OutputFailed),
    }
}

/// Prints a text whole, and flushes it.
pub fn print_whole<'a, W: Write>(out: &mut W, text: &str) -> Result<(), RunFault<'a>>
    ensures { OnOk result (Appends (W.contents out.old) (W.contents out.new) text.now) }
{
    print_text(out, text.as_bytes())?;
    flush(out)
}
