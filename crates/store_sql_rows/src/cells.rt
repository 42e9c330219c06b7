//! What a cell of a row says. Past the end of a row each cell is NULL.
ghost use Rattle.std.specs.Prelude.{◌≡◌, Some, None, IfOk, IfErr};
ghost use Rattle.sqlite_value.specs.Order.{column};
ghost use Rattle.sqlite_value.specs.Value.{owned};
ghost use Rattle.store_sql_rows.specs.declared.read_fault.ReadFault.TheVariants.{BadRow};
ghost use Rattle.dates.specs.Entry.{reading};
ghost use Rattle.store_sql_rows.specs.Cells.{count_in, entry_in, entry_of, is_text, name_in, number_in, optional_in};

use crate::read_fault::ReadFault;
use dates::Entry;
use points::Name;
use sqlite::Row;
use sqlite_value::value::ValueRef;

pub(crate) fn cell_at(row: &Row, at: usize) -> ValueRef<'_>
    ensures { owned result ≡ column row.now at }
{
    match row.get_ref(at) {
        Ok(value) => value,
        Err(_) => ValueRef::Null,
    }
}

/// Whether a cell has this text.
pub(crate) fn is_text(cell: ValueRef<'_>, text: &str) -> bool
    ensures { result ≡ is_text text.now (owned cell.entry) }
{
    match cell {
        ValueRef::Text(bytes) => text.as_bytes() == bytes,
        _ => false,
    }
}

#[tactic(auto, using(crate::proofs::SpellingLemmas::no_name))]
fn name_of(cell: ValueRef<'_>) -> Option<Name>
    ensures { result ≡ name_in (owned cell.entry) }
{
    match cell {
        ValueRef::Text(bytes) => match str::from_utf8(bytes) {
            Ok(text) => Name::read(text).ok(),
            Err(_) => None,
        },
        _ => None,
    }
}

pub(crate) fn count_of(cell: ValueRef<'_>, least: u64, greatest: u64) -> Option<u64>
    ensures { result ≡ count_in least greatest (owned cell.entry) }
{
    match cell {
        ValueRef::Int(number) => {
            let count = u64::try_from(number).ok()?;
            if least <= count && count <= greatest {
                Some(count)
            } else {
                None
            }
        }
        _ => None,
    }
}

pub(crate) fn number_of(cell: ValueRef<'_>) -> Option<i64>
    ensures { result ≡ number_in (owned cell.entry) }
{
    match cell {
        ValueRef::Int(number) => Some(number),
        _ => None,
    }
}

fn optional_of(cell: ValueRef<'_>) -> Option<Option<i64>>
    ensures { result ≡ optional_in (owned cell.entry) }
{
    match cell {
        ValueRef::Null => Some(None),
        ValueRef::Int(number) => Some(Some(number)),
        _ => None,
    }
}

fn read_entry(text: &str) -> Option<Entry>
    ensures { result ≡ entry_of (reading text.now) }
{
    match Entry::read(text) {
        Ok(entry) => Some(entry),
        Err(_) => None,
    }
}

#[tactic(auto, using(crate::proofs::SpellingLemmas::no_entry))]
fn entry_of(cell: ValueRef<'_>) -> Option<Entry>
    ensures { result ≡ entry_in (owned cell.entry) }
{
    match cell {
        ValueRef::Text(bytes) => match str::from_utf8(bytes) {
            Ok(text) => read_entry(text),
            Err(_) => None,
        },
        _ => None,
    }
}

/// The name in a column.
pub fn name_at(row: &Row, at: usize) -> Result<Name, ReadFault>
    ensures value { IfOk result (λ name. name_in (column row.now at) ≡ Some name) }
    ensures bad { IfErr result (λ fault. name_in (column row.now at) ≡ None) }
    ensures fault { IfErr result (λ fault. fault ≡ BadRow) }
{
    name_of(cell_at(row, at)).ok_or(ReadFault::BadRow)
}

/// The number in a column that lies between two.
pub fn count_at(row: &Row, at: usize, least: u64, greatest: u64) -> Result<u64, ReadFault>
    ensures value { IfOk result (λ count. count_in least greatest (column row.now at) ≡ Some count) }
    ensures bad { IfErr result (λ fault. count_in least greatest (column row.now at) ≡ None) }
    ensures fault { IfErr result (λ fault. fault ≡ BadRow) }
{
    count_of(cell_at(row, at), least, greatest).ok_or(ReadFault::BadRow)
}

/// The number in a column.
pub fn number_at(row: &Row, at: usize) -> Result<i64, ReadFault>
    ensures value { IfOk result (λ number. number_in (column row.now at) ≡ Some number) }
    ensures bad { IfErr result (λ fault. number_in (column row.now at) ≡ None) }
    ensures fault { IfErr result (λ fault. fault ≡ BadRow) }
{
    number_of(cell_at(row, at)).ok_or(ReadFault::BadRow)
}

/// The number in a column, or `None` where it is NULL.
pub fn optional_at(row: &Row, at: usize) -> Result<Option<i64>, ReadFault>
    ensures value { IfOk result (λ value. optional_in (column row.now at) ≡ Some value) }
    ensures bad { IfErr result (λ fault. optional_in (column row.now at) ≡ None) }
    ensures fault { IfErr result (λ fault. fault ≡ BadRow) }
{
    optional_of(cell_at(row, at)).ok_or(ReadFault::BadRow)
}

/// The entry that a column spells.
pub fn entry_at(row: &Row, at: usize) -> Result<Entry, ReadFault>
    ensures value { IfOk result (λ entry. entry_in (column row.now at) ≡ Some entry) }
    ensures bad { IfErr result (λ fault. entry_in (column row.now at) ≡ None) }
    ensures fault { IfErr result (λ fault. fault ≡ BadRow) }
{
    match entry_of(cell_at(row, at)) {
        Some(entry) => Ok(entry),
        None => Err(ReadFault::BadRow),
    }
}
