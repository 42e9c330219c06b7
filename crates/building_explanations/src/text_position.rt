//! The line and the column of a position in a text.

ghost use Rattle.std.specs.Prelude.{◌≡◌, ◌+◌, ◌≤◌, length, take};
ghost use Rattle.building_explanations.specs.TextPosition.{character_count, last_line, line_end_count};

/// A position in a text: its line, and its column in characters, both counted from 1.
#[derive(Clone, Copy)]
pub(crate) struct TextPosition {
    pub line: usize,
    pub column: usize,
}

/// The position at an offset of a text.
pub(crate) fn position_at(text: &[u8], offset: usize) -> TextPosition
    requires { offset ≤ length text.now }
    ensures line { result.line ≡ line_end_count (take offset text.now) + 1 }
    ensures column { result.column ≡ character_count (last_line (take offset text.now)) + 1 }
{
    let before = &text[..offset];
    TextPosition {
        line: line_end_count(before) + 1,
        column: character_count(last_line(before)) + 1,
    }
}

/// How many lines end in a text.
fn line_end_count(text: &[u8]) -> usize
    ensures count { result ≡ line_end_count text.now }
    ensures bound { result ≤ length text.now }
{
    text.iter().filter(|byte| **byte == b'\n').count()
}

/// What stands after the last line end of a text.
fn last_line(text: &[u8]) -> &[u8]
    ensures line { result.now ≡ last_line text.now }
    ensures bound { length result.now ≤ length text.now }
{
    let mut start = text.len();
    while 0 < start && text[start - 1] != b'\n' {
        start -= 1;
    }
    &text[start..]
}

/// How many characters begin in a text.
fn character_count(text: &[u8]) -> usize
    ensures count { result ≡ character_count text.now }
    ensures bound { result ≤ length text.now }
{
    text.iter().filter(|byte| **byte & 0xC0 != 0x80).count()
}
