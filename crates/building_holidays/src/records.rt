//! The records of a text.

ghost use Rattle.std.specs.Prelude.{◌≡◌, IfOk, map};
ghost use Rattle.csv.specs.Records.{fields_of};
ghost use Rattle.building_holidays.specs.CsvRecords.{records_of};

use csv::{ByteRecord, ReaderBuilder};
use std::alloc::{AllocError, Global};

/// Every record of a CSV text, in turn.
pub fn all_records(alloc: Global, text: &[u8]) -> Result<Vec<ByteRecord>, AllocError>
    ensures { IfOk result (λ records. map fields_of records.items ≡ records_of text.now) }
{
    let reader = ReaderBuilder::new()
        .has_headers(false)
        .flexible(true)
        .from_reader(alloc, text);
    let mut records = Vec::new(alloc);
    for record in reader.into_byte_records() {
        match record {
            Ok(record) => records.push(record)?,
            // of a slice, at any length, nothing but memory is refused
            Err(_) => return Err(AllocError),
        }
    }
    Ok(records)
}
