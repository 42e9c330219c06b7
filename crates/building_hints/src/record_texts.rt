//! The records of a holiday list, and their fields as text.
ghost use Rattle.std.specs.Prelude.{◌≡◌, IfOk, map, option_map};
ghost use Rattle.csv.specs.Records.{fields_of};
ghost use Rattle.building_holidays.specs.CsvRecords.{records_of};
ghost use Rattle.building_hints.specs.ListHints.{is_alone, is_header, is_text_at, separator, separator_of, text_at};

use crate::separator::Separator;
use csv::{ByteRecord, ReaderBuilder};
use points::text_of;
use std::alloc::{AllocError, Global};

/// Every record of a CSV text, in turn.
pub(crate) fn all_records(alloc: Global, text: &[u8]) -> Result<Vec<ByteRecord>, AllocError>
    ensures { IfOk result (λ records. map fields_of records.items ≡ records_of text.now) }
{
    let reader = ReaderBuilder::new()
        .has_headers(false)
        .flexible(true)
        .from_reader(alloc, text);
    let mut records = Vec::new(alloc);
    for record in reader.into_byte_records() {
        match record {
            Ok(record) => records.push(record)?,
            // of a slice, at any length, nothing but memory is refused
            Err(_) => return Err(AllocError),
        }
    }
    Ok(records)
}

/// The text of a field, where it is UTF-8.
#[tactic(auto, unfolding(crate::specs::ListHints::text_at))]
pub(crate) fn text_at(fields: &ByteRecord, index: usize) -> Option<&str>
    ensures { option_map (λ text. text.now) result ≡ text_at (fields_of fields.now) index }
{
    text_of(fields.get(index)?)
}

fn is_text_at(fields: &ByteRecord, index: usize, text: &str) -> bool
    ensures { result ≡ is_text_at (fields_of fields.now) index text.now }
{
    match text_at(fields, index) {
        Some(field) => field == text,
        None => false,
    }
}

fn is_alone(fields: &ByteRecord, text: &str) -> bool
    ensures { result ≡ is_alone (fields_of fields.now) text.now }
{
    fields.len() == 1 && is_text_at(fields, 0, text)
}

fn is_header(fields: &ByteRecord) -> bool
    ensures { result ≡ is_header (fields_of fields.now) }
{
    fields.len() == 2 && is_text_at(fields, 0, "calendar") && is_text_at(fields, 1, "entry")
}

fn separator_of(fields: &ByteRecord) -> Separator
    ensures { result ≡ separator_of (fields_of fields.now) }
{
    if is_header(fields) {
        Separator::Comma
    } else if is_alone(fields, "calendar;entry") {
        Separator::Semicolon
    } else if is_alone(fields, "calendar\tentry") {
        Separator::Tab
    } else {
        Separator::Unknown
    }
}

/// What separates the columns of a list of these records.
pub(crate) fn separator(records: &[ByteRecord]) -> Separator
    ensures { result ≡ separator (map fields_of records.now) }
{
    match records.first() {
        Some(header) => separator_of(header),
        None => Separator::Unknown,
    }
}
