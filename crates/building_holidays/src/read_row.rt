//! The records of a list, read in turn.

ghost use Rattle.std.specs.Prelude.{◌≡◌, ◌+◌, ◌<◌, ◌^◌, length, map};
ghost use Rattle.csv.specs.Records.{fields_of};
ghost use Rattle.building_holidays.specs.Answers.{Answers};
ghost use Rattle.points.specs.FaultSteps.{result_map};
ghost use Rattle.building_holidays.specs.Meanings.{all_ok, meanings};

use crate::{ImportFault, ImportRefusal};
use csv::ByteRecord;
use std::alloc::Global;

/// How a record is read. The loop over a list's records stands over this trait, since the check makes no plan
/// for one that gathers entries.
pub trait ReadRow<T> {
    ghost use Rattle.std.specs.Prelude.{◌≡◌, Result, ℕ};
    ghost use Rattle.csv.specs.Records.{fields_of};
    ghost use Rattle.building_holidays.specs.CsvRecords.{Fields};
    ghost use Rattle.building_holidays.specs.declared.import_fault.ImportFault.{ImportFault};

    /// What the record of a number means, or its fault.
    ghost meaning: { Self → ℕ → Fields → Result T ImportFault };

    fn read(&self, number: u64, fields: &ByteRecord) -> Result<T, ImportFault>
        ensures { result ≡ meaning self.now number (fields_of fields.now) };
}

/// What records mean, of which the first has this number, or the fault of the least faulty one.
pub(crate) fn read_rows<T: Drop, R: ReadRow<T>>(
    alloc: Global,
    reader: &R,
    first: u32,
    records: &[ByteRecord],
) -> Result<Vec<T>, ImportRefusal>
    ensures { Answers (all_ok (meanings (R.meaning reader.now) first (map fields_of records.now)))
        (result_map (λ rows. rows.items) result) }
{
    let mut rows = Vec::new(alloc);
    for (index, fields) in records.iter().enumerate() {
        let number = index as u64 + u64::from(first);
        rows.push(reader.read(number, fields)?)?;
    }
    Ok(rows)
}
