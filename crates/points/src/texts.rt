//! The text that bytes are, the name that a text is, and whether a key is known: what each reader of a file, a line or
//! a request begins with.

ghost use Rattle.std.specs.Prelude.{◌≡◌, option_map};
ghost use Rattle.std.specs.List.{list_any};
ghost use Rattle.std.specs.Str.{bytes_eq};
ghost use Rattle.points.specs.Texts.{name_of, text_of};

use crate::name::Name;

/// The bytes as text, where they are UTF-8.
pub fn text_of(bytes: &[u8]) -> Option<&str>
    ensures { option_map (λ s. s.now) result ≡ text_of bytes.now }
{
    std::str::from_utf8(bytes).ok()
}

/// The name that a text is, if it is one.
pub fn name_of(text: &str) -> Option<Name>
    ensures { result ≡ name_of text.now }
{
    Name::read(text).ok()
}

/// Whether a key is among those that a table or an object may have.
pub fn is_known_key(known: &[&str], key: &str) -> bool
    ensures { result ≡ list_any (λ k. bytes_eq k.now key.now) known.now }
{
    known.iter().any(|k| *k == key)
}
