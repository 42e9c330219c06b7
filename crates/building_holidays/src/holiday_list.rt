//! The rows of a holiday list.

ghost use Rattle.std.specs.Prelude.{◌≡◌, map};
ghost use Rattle.std.specs.Result.{result_ok};
ghost use Rattle.dates.specs.Entry.{reading};
ghost use Rattle.csv.specs.Records.{fields_of};
ghost use Rattle.building_holidays.specs.Answers.{Answers};
ghost use Rattle.points.specs.FaultSteps.{result_map};
ghost use Rattle.building_holidays.specs.CalendarNamed.{calendar_of};
ghost use Rattle.building_holidays.specs.HolidayList.{header_in, holidays_in, row_in};
ghost use Rattle.building_holidays.specs.CsvRecords.{records_of};

use crate::read_row::{ReadRow, read_rows};
use crate::record_texts::{is_text, two_texts};
use crate::records::all_records;
use crate::{ImportCause, ImportFault, ImportRefusal};
use building::Building;
use csv::ByteRecord;
use dates::Entry;
use points::name_of;
use sched::{CalId, CalendarEntry};
use std::alloc::Global;

/// The record of the last row that a list may have: 2,000 rows follow the header (this profile's limit).
const LAST_RECORD: u64 = 2_001;

/// Reads the rows of a holiday list, entries for the calendars of a building, or answers the fault of its least
/// faulty record.
pub fn read_holidays(
    alloc: Global,
    building: &Building,
    bytes: &[u8],
) -> Result<Vec<CalendarEntry>, ImportRefusal>
    ensures { Answers (holidays_in (calendar_of building.now.calendars) (records_of bytes.now))
        (result_map (λ rows. rows.items) result) }
{
    let records = all_records(alloc, bytes)?;
    rows_of(alloc, building, records.as_slice())
}

/// The rows of a list's records.
#[tactic(auto, unfolding(crate::specs::HolidayList::holidays_in))]
fn rows_of(
    alloc: Global,
    building: &Building,
    records: &[ByteRecord],
) -> Result<Vec<CalendarEntry>, ImportRefusal>
    ensures { Answers (holidays_in (calendar_of building.now.calendars) (map fields_of records.now))
        (result_map (λ rows. rows.items) result) }
{
    let Some((header, rows)) = records.split_first() else {
        return Err(ImportCause::OtherHeader.at(1).into());
    };
    check_header(header)?;
    read_rows(alloc, building, 2, rows)
}

/// Refuses another header than `calendar,entry` (I1, I2).
fn check_header(fields: &ByteRecord) -> Result<(), ImportFault>
    ensures { result ≡ header_in (fields_of fields.now) }
{
    if !is_text(fields) {
        return Err(ImportCause::NotCsv.at(1));
    }
    match two_texts(fields) {
        Some((calendar, entry)) if calendar == "calendar" && entry == "entry" => Ok(()),
        _ => Err(ImportCause::OtherHeader.at(1)),
    }
}

impl ReadRow<CalendarEntry> for Building {
    ghost use Rattle.building_holidays.specs.CalendarNamed.{calendar_of};
    ghost use Rattle.building_holidays.specs.HolidayList.{row_in};

    ghost meaning = { λ building. row_in (calendar_of building.calendars) };

    fn read(&self, number: u64, fields: &ByteRecord) -> Result<CalendarEntry, ImportFault> {
        row_in(self, number, fields)
    }
}

/// The row that a record of this number names (I1, I5, I3, I4).
#[tactic(auto, unfolding(crate::specs::HolidayList::row_in))]
fn row_in(
    building: &Building,
    number: u64,
    fields: &ByteRecord,
) -> Result<CalendarEntry, ImportFault>
    ensures { result ≡ row_in (calendar_of building.now.calendars) number (fields_of fields.now) }
{
    let (name, entry) = two_texts(fields).ok_or(ImportCause::NotCsv.at(number))?;
    if number > LAST_RECORD {
        return Err(ImportCause::TooManyRows.at(number));
    }
    let calendar = calendar_of(building, name).ok_or(ImportCause::UnknownCalendar.at(number))?;
    let entry = entry_of(entry).ok_or(ImportCause::NotAnEntry.at(number))?;
    Ok(CalendarEntry { calendar, entry })
}

/// The calendar that a text names.
fn calendar_of(building: &Building, text: &str) -> Option<CalId>
    ensures { result ≡ calendar_of building.now.calendars text.now }
{
    let index = building.calendar_index(&name_of(text)?)?;
    Some(CalId { index })
}

/// The entry that a text spells.
fn entry_of(text: &str) -> Option<Entry>
    ensures { result ≡ result_ok (reading text.now) }
{
    // not by `ok()`, for which the check makes no plan at this type
    match Entry::read(text) {
        Ok(entry) => Some(entry),
        Err(_) => None,
    }
}
