//! A fault as one line.

use std::alloc::{AllocError, Global};
use std::fmt;
use std::io::Write;

/// A fault's text as one line with its line end (LF): a character in it that would end or hide the line is written as
/// an escape.
fn line_of<T: fmt::Display>(alloc: Global, fault: &T) -> Result<String, AllocError> {
    let text = fault.to_string(alloc)?;
    let mut line = String::new(alloc);
    for character in text.chars() {
        if character.is_control() {
            write!(line, "{}", character.escape_default())?;
        } else {
            line.push(character)?;
        }
    }
    line.push('\n')?;
    Ok(line)
}

/// Prints a fault as one line: in one write, or where memory is refused for that, piece by piece and with what it names
/// as it is.
pub fn print_fault<T: fmt::Display, F: Write>(alloc: Global, fault: &T, out: &mut F) {
    let _printed = match line_of(alloc, fault) {
        Ok(line) => out.write_all(line.as_bytes()),
        Err(_) => writeln!(out, "{fault}"),
    };
}
