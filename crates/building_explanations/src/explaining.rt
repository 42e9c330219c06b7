//! The line that explains a fault.
ghost use Rattle.std.specs.Prelude.{◌≤◌, IfOk, length, string_bytes};
ghost use Rattle.building_explanations.specs.OneLine.{IsOneLine};

use crate::at_fault::item_at_fault;
use crate::one_line::one_line;
use crate::table_kind::kind_at;
use crate::text_position::{TextPosition, position_at};
use building::{Cause, FileFault, Key};
use std::alloc::{AllocError, Global};
use toml::Table;

/// The bytes that a building file may begin with, which are no part of its text.
const BYTE_ORDER_MARK: [u8; 3] = [0xEF, 0xBB, 0xBF];

/// The line, without its line end, that explains the first fault of the building file of these bytes: the item at fault
/// with its text, and what is expected there, as `entries[3] "2025-2-25": a month has two digits, ..`. Where the item
/// is not found, the line has the key and what it takes. The only error is a failed allocation.
pub fn explanation(alloc: Global, bytes: &[u8], fault: &FileFault) -> Result<String, AllocError>
    ensures { IfOk result (λ line. IsOneLine (string_bytes line)) }
{
    let text = explained(alloc, bytes, fault)?;
    one_line(alloc, text.as_str())
}

fn explained(alloc: Global, bytes: &[u8], fault: &FileFault) -> Result<String, AllocError> {
    match (fault.cause, fault.key) {
        (Cause::BeyondLimit, Key::File) => String::from_str(
            alloc,
            "the file has more than 1048576 bytes: at most 1048576 are allowed",
        ),
        (Cause::NotToml, _) => toml_explained(alloc, bytes),
        _ => item_explained(alloc, bytes, fault),
    }
}

/// The item of a fault, or where it is not found its key and what that takes.
fn item_explained(alloc: Global, bytes: &[u8], fault: &FileFault) -> Result<String, AllocError> {
    match tables_of(alloc, bytes)? {
        Some(top) => item_text(alloc, &top, fault),
        None => key_text(alloc, fault),
    }
}

fn item_text(alloc: Global, top: &Table, fault: &FileFault) -> Result<String, AllocError> {
    match item_at_fault(top, fault) {
        Some(item) => item.to_string(alloc),
        None => key_text(alloc, fault),
    }
}

/// The key of a fault, and what it takes.
fn key_text(alloc: Global, fault: &FileFault) -> Result<String, AllocError> {
    let what = kind_at(fault).taken_by(fault.key);
    format!(in alloc; "{}: expected {what}", fault.key)
}

/// The tables of a file, where it is TOML.
fn tables_of(alloc: Global, bytes: &[u8]) -> Result<Option<Table>, AllocError> {
    let Some(text) = points::text_of(bytes) else {
        return Ok(None);
    };
    match toml::table_from_str(alloc, text) {
        Ok(top) => Ok(Some(top)),
        Err(error) if error.is_memory() => Err(AllocError),
        Err(_) => Ok(None),
    }
}

/// Where a file is no TOML, and why.
fn toml_explained(alloc: Global, bytes: &[u8]) -> Result<String, AllocError> {
    match std::str::from_utf8(bytes) {
        Ok(text) => text_explained(alloc, text),
        Err(error) => position_text(
            alloc,
            position_in(bytes, error.valid_up_to()),
            "a byte that is not UTF-8",
        ),
    }
}

fn text_explained(alloc: Global, text: &str) -> Result<String, AllocError> {
    match toml::table_from_str(alloc, text) {
        Ok(_) => String::from_str(alloc, "the file: expected TOML in UTF-8"),
        Err(error) => match error.span() {
            Some(span) => position_text(
                alloc,
                position_in(text.as_bytes(), span.start),
                error.message(),
            ),
            None => Err(AllocError),
        },
    }
}

/// The position at an offset of a file. A byte order mark at its beginning takes no column.
fn position_in(bytes: &[u8], offset: usize) -> TextPosition
    requires { offset ≤ length bytes.now }
{
    match bytes.strip_prefix(&BYTE_ORDER_MARK) {
        Some(text) if 3 <= offset => position_at(text, offset - 3),
        _ => position_at(bytes, offset),
    }
}

fn position_text(
    alloc: Global,
    position: TextPosition,
    message: &str,
) -> Result<String, AllocError> {
    let TextPosition { line, column } = position;
    format!(in alloc; "line {line}, column {column}: {message}")
}
