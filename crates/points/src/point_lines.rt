//! The POINT line of a point, which a replay and the report of a day both print: its name, what it presents and at
//! which priority, each in its columns. `push_right` is for other columns of the same pages.

ghost use Rattle.std.specs.Prelude.{◌≡◌, ◌++◌, IfOk, OnOk, replicate, string_bytes};
ghost use Rattle.points.specs.PointLine.{left_in, point_line, right_in};

use crate::name::Name;
use itoa::Buffer;
use std::alloc::{AllocError, Global};

// The columns of a name, of a present value and of a priority, in characters.
const NAME_WIDTH: usize = 32;

const VALUE_WIDTH: usize = 12;

const PRIORITY_WIDTH: usize = 2;

// Those of nearly every line, with its first word, its space and its line end.
const LINE_WIDTH: usize = 54;

/// The POINT line of a point, with its line end (LF).
pub fn point_line(
    alloc: Global,
    name: &Name,
    present: i64,
    priority: u8,
) -> Result<String, AllocError>
    ensures { IfOk result (λ line. string_bytes line ≡ point_line name.now present priority) }
{
    let mut line = String::with_capacity(alloc, LINE_WIDTH)?;
    push_point_line(&mut line, name, present, priority)?;
    Ok(line)
}

/// Writes the POINT line of a point, with its line end (LF).
pub fn push_point_line(
    text: &mut String,
    name: &Name,
    present: i64,
    priority: u8,
) -> Result<(), AllocError>
    ensures { OnOk result (string_bytes text.new ≡ string_bytes text.old ++ point_line name.now present priority) }
{
    text.push_str("POINT ")?;
    push_left(text, name.as_str(), NAME_WIDTH)?;
    push_right(text, Buffer::new().format(present), VALUE_WIDTH)?;
    text.push_str(" ")?;
    push_right(text, Buffer::new().format(priority), PRIORITY_WIDTH)?;
    text.push_str("\n")
}

fn push_left(line: &mut String, text: &str, width: usize) -> Result<(), AllocError>
    ensures { OnOk result (string_bytes line.new ≡ string_bytes line.old ++ left_in width text.now) }
{
    line.push_str(text)?;
    push_spaces(line, width.saturating_sub(text.len()))
}

/// Writes a text at the right of a column of that width; a text that is longer stands whole.
pub fn push_right(line: &mut String, text: &str, width: usize) -> Result<(), AllocError>
    ensures { OnOk result (string_bytes line.new ≡ string_bytes line.old ++ right_in width text.now) }
{
    push_spaces(line, width.saturating_sub(text.len()))?;
    line.push_str(text)
}

fn push_spaces(line: &mut String, count: usize) -> Result<(), AllocError>
    ensures { OnOk result (string_bytes line.new ≡ string_bytes line.old ++ replicate count 32) }
{
    for _pushed in 0..count {
        line.push(' ')?;
    }
    Ok(())
}
