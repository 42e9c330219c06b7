//! A text, written whole.
ghost use Rattle.std.specs.Prelude.{◌≡◌, true};
ghost use Rattle.std.specs.Io.KnownBytes.{Appends};
ghost use Rattle.points.specs.Beginnings.{AppendsStart};

use std::io::Write;

/// Writes a text, and answers whether it was written whole. If not, a beginning of it was: a write that fails or takes
/// no byte is not made again.
pub fn write_whole<W: Write>(out: &mut W, text: &[u8]) -> bool
    ensures whole { result ≡ true → Appends (W.contents out.old) (W.contents out.new) text.now }
    ensures start { AppendsStart (W.contents out.old) (W.contents out.new) text.now }
{
    let mut rest = text;
    while !rest.is_empty() {
        match out.write(rest) {
            Ok(0) | Err(_) => return false,
            Ok(count) => rest = &rest[count..],
        }
    }
    true
}
