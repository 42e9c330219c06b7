//! The entries that are imported into calendars.
ghost use Rattle.std.specs.Prelude.{◌≡◌, ◌++◌, List, IfOk, OnOk, map, string_bytes};
ghost use Rattle.std.specs.List.{flat_map, list_any};
ghost use Rattle.std.specs.Str.{bytes_eq};
ghost use Rattle.dates.specs.Entry.{spelling};
ghost use Rattle.store.specs.Listed.{AreEntries};
ghost use Rattle.store.specs.Standing.{IsOpen};
ghost use Rattle.cli_record.specs.declared.difference.Difference.{Difference as a_difference};
ghost use Rattle.cli_record.specs.declared.difference.Difference.TheVariants.{NotRecorded, RecordedAlone};
ghost use Rattle.cli_record.specs.Compared.{Compares};
ghost use Rattle.cli_record.specs.Differences.{OfCalendar, OfCalendars, is_among, of_entries};
ghost use Rattle.cli_record.specs.Unless.{unless};

use crate::comparing::CompareFault;
use crate::difference::Difference;
use building::NamedCalendar;
use dates::Entry;
use points::Name;
use std::alloc::{AllocError, Global};
use store::Store;

/// The entries of a calendar on either side, in the order of their texts.
#[derive(Drop)]
struct Entries {
    held: Vec<Entry>,
    recorded: Vec<Entry>,
}

fn both_entries<S: Store, T: Store>(
    store: &mut S,
    other: &mut T,
    calendar: &Name,
) -> Result<Entries, CompareFault>
    requires open { IsOpen (S.standing store.old) }
    ensures { Compares (λ held recorded both. AreEntries held calendar.now both.held.items
        × AreEntries recorded calendar.now both.recorded.items)
        result (S.standing store.old) (S.standing store.new) (T.standing other.old) (T.standing other.new) }
{
    let held = store.entries(calendar)?;
    match other.entries(calendar) {
        Ok(recorded) => Ok(Entries { held, recorded }),
        Err(fault) => Err(CompareFault::Recorded(fault)),
    }
}

/// The texts of entries.
fn texts_of(alloc: Global, entries: &[Entry]) -> Result<Vec<String>, AllocError>
    ensures { IfOk result (λ texts. map string_bytes texts.items ≡ map spelling entries.now) }
{
    let mut texts = Vec::new(alloc);
    for entry in entries {
        texts.push(entry.write(alloc)?)?;
    }
    Ok(texts)
}

/// Whether a text is one of these.
fn has_text(texts: &[String], text: &str) -> bool
    ensures { result ≡ list_any (λ other. bytes_eq text.now (string_bytes other)) texts.now }
{
    texts.iter().any(|other| text == other.as_str())
}

/// Whether an entry has one of these texts.
#[tactic(auto, using(crate::proofs::WalkLemmas::list_any_map))]
fn is_among(alloc: Global, texts: &[String], entry: &Entry) -> Result<bool, AllocError>
    ensures { IfOk result (λ among. among ≡ list_any (bytes_eq (spelling entry.now)) (map string_bytes texts.now)) }
{
    let text = entry.write(alloc)?;
    Ok(has_text(texts, text.as_str()))
}

/// Adds the entries that are none of the record's.
fn add_not_recorded(
    alloc: Global,
    found: &mut Vec<Difference>,
    calendar: &Name,
    entries: &[Entry],
    recorded: &[Entry],
) -> Result<(), AllocError>
    ensures { OnOk result (found.new.items ≡ found.old.items
        ++ flat_map (λ entry. unless (is_among recorded.now entry) (NotRecorded calendar.now entry)) entries.now) }
{
    let texts = texts_of(alloc, recorded)?;
    for entry in entries {
        if !is_among(alloc, texts.as_slice(), entry)? {
            found.push(Difference::NotRecorded {
                calendar: *calendar,
                entry: *entry,
            })?;
        }
    }
    Ok(())
}

/// Adds the record's entries that are none of the database's.
fn add_recorded_alone(
    alloc: Global,
    found: &mut Vec<Difference>,
    calendar: &Name,
    entries: &[Entry],
    held: &[Entry],
) -> Result<(), AllocError>
    ensures { OnOk result (found.new.items ≡ found.old.items
        ++ flat_map (λ entry. unless (is_among held.now entry) (RecordedAlone calendar.now entry)) entries.now) }
{
    let texts = texts_of(alloc, held)?;
    for entry in entries {
        if !is_among(alloc, texts.as_slice(), entry)? {
            found.push(Difference::RecordedAlone {
                calendar: *calendar,
                entry: *entry,
            })?;
        }
    }
    Ok(())
}

fn add_entries(
    alloc: Global,
    found: &mut Vec<Difference>,
    calendar: &Name,
    both: &Entries,
) -> Result<(), AllocError>
    ensures { OnOk result (found.new.items ≡ found.old.items
        ++ of_entries calendar.now both.now.held.items both.now.recorded.items) }
{
    let (held, recorded) = (both.held.as_slice(), both.recorded.as_slice());
    add_not_recorded(alloc, found, calendar, held, recorded)?;
    add_recorded_alone(alloc, found, calendar, recorded, held)
}

fn compare_calendar<S: Store, T: Store>(
    alloc: Global,
    found: &mut Vec<Difference>,
    store: &mut S,
    other: &mut T,
    calendar: &NamedCalendar,
) -> Result<(), CompareFault>
    requires open { IsOpen (S.standing store.old) }
    ensures { Compares (λ held recorded _. (part : List a_difference) × (found.new.items
        ≡ found.old.items ++ part) × OfCalendar held recorded calendar.now part)
        result (S.standing store.old) (S.standing store.new) (T.standing other.old) (T.standing other.new) }
{
    let both = both_entries(store, other, &calendar.name)?;
    add_entries(alloc, found, &calendar.name, &both)?;
    Ok(())
}

/// Adds where calendars differ, one after the other.
pub fn compare_calendars<S: Store, T: Store>(
    alloc: Global,
    found: &mut Vec<Difference>,
    store: &mut S,
    other: &mut T,
    calendars: &[NamedCalendar],
) -> Result<(), CompareFault>
    requires open { IsOpen (S.standing store.old) }
    requires open_other { IsOpen (T.standing other.old) }
    ensures { Compares (λ held recorded _. (part : List a_difference) × (found.new.items
        ≡ found.old.items ++ part) × OfCalendars held recorded calendars.now part)
        result (S.standing store.old) (S.standing store.new) (T.standing other.old) (T.standing other.new) }
{
    for calendar in calendars {
        compare_calendar(alloc, found, store, other, calendar)?;
    }
    Ok(())
}
