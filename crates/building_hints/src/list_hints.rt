//! Hints at a holiday list.
ghost use Rattle.std.specs.Prelude.{◌≡◌, ◌++◌, IfOk, OnOk, is_some, map, option_copied, string_bytes};
ghost use Rattle.csv.specs.Records.{fields_of};
ghost use Rattle.building.specs.Building.{contents_of};
ghost use Rattle.building_holidays.specs.CalendarNamed.{calendar_of};
ghost use Rattle.building_holidays.specs.CsvRecords.{records_of};
ghost use Rattle.building_holidays.specs.HolidayList.{holidays_in};
ghost use Rattle.building_hints.specs.HintLines.{numbered};
ghost use Rattle.building_hints.specs.ListHints.{further, is_nearer, list_text, nearer_first, nearest, nearest_words, outcome, rows_text, separator_line, unknown_hint, unknown_line};

use crate::changed_days::push_changes;
use crate::record_texts::{all_records, separator, text_at};
use crate::separator::Separator;
use building::{Building, NamedCalendar};
use building_holidays::{ImportRefusal, read_holidays};
use csv::ByteRecord;
use points::name_of;
use std::alloc::{AllocError, Global};
use std::fmt::Write;
use strsim::levenshtein;

fn separator_line(separator: Separator) -> &'static str
    ensures { result.now ≡ separator_line separator }
{
    match separator {
        Separator::Comma => "separator: comma\n",
        Separator::Semicolon => "separator: semicolon, and import reads commas\n",
        Separator::Tab => "separator: tab, and import reads commas\n",
        Separator::Unknown => "separator: unknown, since the header is not calendar,entry\n",
    }
}

// Whether the name of the second calendar is nearer to a text than that of the first one.
fn is_nearer(
    alloc: Global,
    text: &str,
    first: &NamedCalendar,
    second: &NamedCalendar,
) -> Result<bool, AllocError>
    ensures { IfOk result (λ nearer. nearer ≡ is_nearer text.now first.now second.now) }
{
    let to_first = levenshtein(alloc, text, first.name.as_str())?;
    let to_second = levenshtein(alloc, text, second.name.as_str())?;
    Ok(to_second < to_first)
}

// Of the nearest so far and the next one the nearer, of equally near ones the first.
fn nearer_first<'a>(
    alloc: Global,
    text: &str,
    best: Option<&'a NamedCalendar>,
    next: &'a NamedCalendar,
) -> Result<Option<&'a NamedCalendar>, AllocError>
    ensures { IfOk result (λ found. option_copied found ≡ nearer_first text.now (option_copied best.entry) next.now) }
{
    let Some(best) = best else {
        return Ok(Some(next));
    };
    if is_nearer(alloc, text, best, next)? {
        Ok(Some(next))
    } else {
        Ok(Some(best))
    }
}

// The calendar of the nearest name.
fn nearest<'a>(
    alloc: Global,
    calendars: &'a [NamedCalendar],
    text: &str,
) -> Result<Option<&'a NamedCalendar>, AllocError>
    ensures { IfOk result (λ found. option_copied found ≡ nearest calendars.now text.now) }
{
    let mut best = None;
    for calendar in calendars {
        best = nearer_first(alloc, text, best, calendar)?;
    }
    Ok(best)
}

fn nearest_words(alloc: Global, found: Option<&NamedCalendar>) -> Result<String, AllocError>
    ensures { IfOk result (λ words. string_bytes words ≡ nearest_words (option_copied found.entry)) }
{
    match found {
        Some(calendar) => format!(in alloc; "; nearest is {}", calendar.name),
        None => Ok(String::new(alloc)),
    }
}

fn push_unknown(
    alloc: Global,
    out: &mut String,
    calendars: &[NamedCalendar],
    number: u64,
    text: &str,
) -> Result<(), AllocError>
    ensures { OnOk result (string_bytes out.new ≡ string_bytes out.old ++ unknown_line calendars.now number text.now) }
{
    let found = nearest(alloc, calendars, text)?;
    let words = nearest_words(alloc, found)?;
    write!(out, "record {number}: no calendar {text}{words}\n")?;
    Ok(())
}

// Whether a calendar of the building has the name that a text is.
fn is_calendar(building: &Building, text: &str) -> bool
    ensures { result ≡ is_some (calendar_of building.now.calendars text.now) }
{
    match name_of(text) {
        Some(name) => building.calendar_index(&name).is_some(),
        None => false,
    }
}

// Writes a hint where the building lacks the calendar of the record of this number.
fn push_record(
    alloc: Global,
    out: &mut String,
    building: &Building,
    number: u64,
    fields: &ByteRecord,
) -> Result<(), AllocError>
    ensures { OnOk result (string_bytes out.new
        ≡ string_bytes out.old ++ unknown_hint building.now.calendars number (fields_of fields.now)) }
{
    let Some(text) = text_at(fields, 0) else {
        return Ok(());
    };
    if !is_calendar(building, text) {
        push_unknown(alloc, out, building.calendars(), number, text)?;
    }
    Ok(())
}

fn push_records(
    alloc: Global,
    out: &mut String,
    building: &Building,
    records: &[ByteRecord],
) -> Result<(), AllocError>
    ensures { OnOk result (string_bytes out.new
        ≡ string_bytes out.old ++ numbered (unknown_hint building.now.calendars) 2 (map fields_of records.now)) }
{
    for (index, fields) in records.iter().enumerate() {
        push_record(alloc, out, building, index as u64 + 2, fields)?;
    }
    Ok(())
}

fn push_rows(
    alloc: Global,
    out: &mut String,
    building: &Building,
    records: &[ByteRecord],
) -> Result<(), AllocError>
    ensures { OnOk result (string_bytes out.new
        ≡ string_bytes out.old ++ rows_text (contents_of building.now) (map fields_of records.now)) }
{
    match records.split_first() {
        Some((_header, rows)) => push_records(alloc, out, building, rows),
        None => Ok(()),
    }
}

// Writes the days that the import of the list would change, or why it is not imported.
fn push_outcome(
    alloc: Global,
    out: &mut String,
    building: &Building,
    bytes: &[u8],
) -> Result<(), AllocError>
    ensures { OnOk result (string_bytes out.new
        ≡ string_bytes out.old ++ outcome (contents_of building.now) (holidays_in (calendar_of building.now.calendars) (records_of bytes.now))) }
{
    match read_holidays(alloc, building, bytes) {
        Ok(rows) => push_changes(alloc, out, building, rows.as_slice()),
        Err(ImportRefusal::Fault(fault)) => {
            write!(out, "{fault}\n")?;
            Ok(())
        }
        Err(ImportRefusal::NoMemory) => Err(AllocError),
    }
}

/// Writes the hints at a list of these bytes.
pub(crate) fn push_list(
    alloc: Global,
    out: &mut String,
    building: &Building,
    bytes: &[u8],
) -> Result<(), AllocError>
    ensures { OnOk result (string_bytes out.new ≡ string_bytes out.old ++ list_text (contents_of building.now) bytes.now) }
{
    let records = all_records(alloc, bytes)?;
    let separator = separator(records.as_slice());
    out.push_str(separator_line(separator))?;
    match separator {
        Separator::Comma => {
            push_rows(alloc, out, building, records.as_slice())?;
            push_outcome(alloc, out, building, bytes)
        }
        _ => Ok(()),
    }
}
