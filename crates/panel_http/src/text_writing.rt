//! A text, written whole.
ghost use Rattle.std.specs.Prelude.{◌≡◌, true, false};
ghost use Rattle.std.specs.Io.KnownBytes.{Appends};
ghost use Rattle.panel_http.specs.Counting.{Lost};

use crate::counted_end::Counted;
use std::io::Write;

/// Writes a text, and answers whether it was written whole. If not, a beginning of it was, and the writer's count has
/// risen: a write that fails or takes no byte is not made again.
pub fn write_text<W: Write>(writer: &mut Counted<W>, text: &[u8]) -> bool
    ensures whole { result ≡ true → Appends (W.contents writer.old.inner) (W.contents writer.new.inner) text.now }
    ensures lost { result ≡ false
        → Lost (W.contents writer.old.inner) (W.contents writer.new.inner) text.now writer.old.failures writer.new.failures }
{
    let mut rest = text;
    while !rest.is_empty() {
        match writer.write(rest) {
            Ok(0) | Err(_) => return false,
            Ok(count) => rest = &rest[count..],
        }
    }
    true
}
