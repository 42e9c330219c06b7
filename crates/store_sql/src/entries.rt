//! A calendar's entries, in the byte order of their texts.
ghost use Rattle.std.specs.Prelude.{◌≡◌, ◌&&◌, [], ◌∷◌, false, true, map, Err, IfErr, IfOk};
ghost use Rattle.std.specs.List.{Contains};
ghost use Rattle.std.specs.Result.{result_err};
ghost use Rattle.sqlite.specs.Held.{state};
ghost use Rattle.sqlite.specs.State.{HasCleanDisk, Survives};
ghost use Rattle.sqlite_value.specs.Order.{column};
ghost use Rattle.store_sql_rows.specs.Broken.{cannot_stand_in};
ghost use Rattle.store.specs.Asked.Asked.{EntriesOf};
ghost use Rattle.store_sql_rows.specs.Looking.{Finds, FindsLeast, is_from_text};
ghost use Rattle.store_sql_rows.specs.Ours.{IsOurs, kept_in};
ghost use Rattle.store_sql.specs.Leaving.{Answers, IsOwnFault};
ghost use Rattle.dates.specs.Entry.{spelling};
ghost use Rattle.store.specs.Listed.{AreEntries, AreTexts};
ghost use Rattle.store_sql_rows.specs.Cells.{is_text};
ghost use Rattle.store_sql_rows.specs.declared.read_fault.ReadFault.TheVariants.{BadRow};
ghost use Rattle.store_sql_rows.specs.Stored.{Kept, tables_in};
ghost use Rattle.store_sql.specs.Texts.{IsNextEntry};

use crate::memory::{no_memory, push};
use dates::Entry;
use points::Name;
use sqlite::{Alter, Connection, Row};
use std::alloc::{AllocError, Global};
use store_memory::CalendarTable;
use store_sql_rows::{ReadFault, calendars, entry_at};

// What the answer of the query on the least entry says.
fn parsed_entry(calendar: &Name, from: &str, rows: Vec<Row>) -> Result<Option<Entry>, ReadFault>
    ensures value { (kept : Kept)
        → FindsLeast (λ row. is_text calendar.now (column row 1) && is_from_text from.now (column row 2)) 2 kept.imported rows.items
        → IfOk result (IsNextEntry kept calendar.now from.now) }
    ensures bad { (kept : Kept)
        → FindsLeast (λ row. is_text calendar.now (column row 1) && is_from_text from.now (column row 2)) 2 kept.imported rows.items
        → IfErr result (λ _. cannot_stand_in kept (EntriesOf calendar.now) ≡ true) }
    ensures fault { IfErr result (λ fault. fault ≡ BadRow) }
{
    // What is asked for is a name, as a row's own has to be.
    let _name = calendar.as_str();
    match rows.first() {
        None => Ok(None),
        Some(row) => Ok(Some(entry_at(row, 0)?)),
    }
}

/// The entry of a calendar whose text is the next from another on, if there is one.
pub fn next_entry<S: Alter>(
    connection: &mut Connection<S>,
    calendar: &Name,
    from: &str,
) -> Result<Option<Entry>, ReadFault>
    ensures answers { Answers (λ kept. IsNextEntry kept calendar.now from.now)
        (λ kept. cannot_stand_in kept (EntriesOf calendar.now) ≡ true)
        (state S.Store connection.old) (state S.Store connection.new) result }
{
    let rows = calendars::next_entry(connection, calendar, from)?;
    parsed_entry(calendar, from, rows)
}

// ---- the entries of a calendar

// Entries in the byte order of their texts, none twice.
fn in_order(alloc: Global, entries: &[Entry]) -> Result<Vec<Entry>, AllocError>
    ensures { IfOk result (λ ordered. AreTexts (Contains (map spelling entries.now)) (map spelling ordered.items)) }
{
    let mut table = CalendarTable::new(alloc);
    table.keep_each(alloc, entries)?;
    table.list(alloc)
}

// What the answer of the query on the entries of a calendar says.
fn parsed_entries(alloc: Global, calendar: &Name, rows: Vec<Row>) -> Result<Vec<Entry>, ReadFault>
    ensures value { (kept : Kept)
        → Finds (λ row. is_text calendar.now (column row 1)) (λ row. column row 2 ∷ []) kept.imported rows.items
        → IfOk result (λ it. AreEntries (tables_in kept) calendar.now it.items) }
    ensures bad { (kept : Kept)
        → Finds (λ row. is_text calendar.now (column row 1)) (λ row. column row 2 ∷ []) kept.imported rows.items
        → IfErr result (λ fault. fault ≡ BadRow → cannot_stand_in kept (EntriesOf calendar.now) ≡ true) }
    ensures stood { (kept : Kept)
        → Finds (λ row. is_text calendar.now (column row 1)) (λ row. column row 2 ∷ []) kept.imported rows.items
        → IfOk result (λ _. cannot_stand_in kept (EntriesOf calendar.now) ≡ false) }
    ensures fault { IfErr result IsOwnFault }
{
    // What is asked for is a name, as a row's own has to be.
    let _name = calendar.as_str();
    let mut entries = Vec::new(alloc);
    for row in &rows {
        push(&mut entries, entry_at(row, 0)?)?;
    }
    match in_order(alloc, &entries) {
        Ok(ordered) => Ok(ordered),
        Err(_) => Err(no_memory()),
    }
}

/// The entries that are imported into a calendar, in the byte order of their texts.
pub fn entries_of<S: Alter>(
    alloc: Global,
    connection: &mut Connection<S>,
    calendar: &Name,
) -> Result<Vec<Entry>, ReadFault>
    ensures answers { Answers (λ kept it. AreEntries (tables_in kept) calendar.now it.items
        × (cannot_stand_in kept (EntriesOf calendar.now) ≡ false))
        (λ kept. cannot_stand_in kept (EntriesOf calendar.now) ≡ true)
        (state S.Store connection.old) (state S.Store connection.new) result }
{
    let rows = calendars::of_calendar(connection, calendar)?;
    parsed_entries(alloc, calendar, rows)
}
