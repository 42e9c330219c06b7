//! A table of a building file, and what stands at its keys.

ghost use Rattle.std.specs.Prelude.{◌≡◌, is_some, option_copied, option_map, slice_get, string_bytes};
ghost use Rattle.std.specs.BTreeMap.{keys};
ghost use Rattle.std.specs.List.{list_all, list_any};
ghost use Rattle.points.specs.FaultSteps.{result_map};
ghost use Rattle.std.specs.Str.{bytes_eq};
ghost use Rattle.toml.specs.Data.{as_table, get_item, get_member};
ghost use Rattle.toml.specs.View.{items_view, table_view, view};
ghost use Rattle.building.specs.FaultAt.{fault_at};
ghost use Rattle.building.specs.FaultLine.{key_text};
ghost use Rattle.building.specs.Items.{all_tables, are_tables, at_most, count_of, exactly, list_item_at};
ghost use Rattle.building.specs.Fields.{has_key, has_only, integer_at, known_keys, lacks_keys, list_at, list_in};
ghost use Rattle.building.specs.Fields.{optional_integer_at, optional_list_at, optional_text_at};
ghost use Rattle.building.specs.Fields.{integer_in, required_at, text_at, text_in};

use crate::cause::Cause;
use crate::file_fault::FileFault;
use crate::key::Key;
use crate::location::Location;
use toml::{Table, Value};

/// A table of a building file, and where it stands.
#[derive(Clone, Copy)]
pub(crate) struct Fields<'a> {
    pub table: &'a Table,
    pub location: Location,
}

impl<'a> Fields<'a> {
    /// The fault at a key.
    pub fn fault(&self, key: Key, cause: Cause) -> FileFault
        ensures { result ≡ fault_at self.now.location key cause }
    {
        self.location.fault(key, cause)
    }

    /// The value at a key.
    pub fn value(&self, key: Key) -> Option<&'a Value>
        ensures { option_map (λ v. view v.now) result
            ≡ get_member (key_text key) (table_view self.now.table.now) }
    {
        value_at(self.table, key.as_str())
    }

    /// Refuses a table that has a key beside these (B2).
    pub fn has_only(&self, known: &[Key]) -> Result<(), FileFault>
        ensures { result ≡ known_keys self.now.location known.now (table_view self.now.table.now) }
    {
        if has_only(self.table, known) {
            Ok(())
        } else {
            Err(self.fault(Key::Unknown, Cause::UnknownKey))
        }
    }

    /// Refuses a table that has one of these keys (B2).
    pub fn has_none(&self, keys: &[Key]) -> Result<(), FileFault>
        ensures { result ≡ lacks_keys self.now.location keys.now (table_view self.now.table.now) }
    {
        if self.has_any(keys) {
            Err(self.fault(Key::Unknown, Cause::UnknownKey))
        } else {
            Ok(())
        }
    }

    fn has_any(&self, keys: &[Key]) -> bool
        ensures { result ≡ list_any (has_key (table_view self.now.table.now)) keys.now }
    {
        keys.iter().any(|key| self.has(*key))
    }

    /// Whether the table has the key.
    pub fn has(&self, key: Key) -> bool
        ensures { result ≡ has_key (table_view self.now.table.now) key }
    {
        self.value(key).is_some()
    }

    /// The text at a key, which has to be there (B3, B4).
    pub fn text(&self, key: Key) -> Result<&'a str, FileFault>
        ensures { result_map (λ s. s.now) result
            ≡ text_at self.now.location key (table_view self.now.table.now) }
    {
        self.text_in(key, self.required(key)?)
    }

    /// The number at a key, which has to be there (B3, B4).
    pub fn integer(&self, key: Key) -> Result<i64, FileFault>
        ensures { result ≡ integer_at self.now.location key (table_view self.now.table.now) }
    {
        self.integer_in(key, self.required(key)?)
    }

    /// The list at a key, which has to be there (B3, B4).
    pub fn list(&self, key: Key) -> Result<&'a [Value], FileFault>
        ensures { result_map (λ vs. items_view vs.now) result
            ≡ list_at self.now.location key (table_view self.now.table.now) }
    {
        self.list_in(key, self.required(key)?)
    }

    /// The text at a key that may be missing (B4).
    pub fn optional_text(&self, key: Key) -> Result<Option<&'a str>, FileFault>
        ensures { result_map (option_map (λ s. s.now)) result
            ≡ optional_text_at self.now.location key (table_view self.now.table.now) }
    {
        match self.value(key) {
            None => Ok(None),
            Some(value) => Ok(Some(self.text_in(key, value)?)),
        }
    }

    /// The number at a key that may be missing (B4).
    pub fn optional_integer(&self, key: Key) -> Result<Option<i64>, FileFault>
        ensures { result ≡ optional_integer_at self.now.location key (table_view self.now.table.now) }
    {
        match self.value(key) {
            None => Ok(None),
            Some(value) => Ok(Some(self.integer_in(key, value)?)),
        }
    }

    /// The list at a key that may be missing (B4).
    pub fn optional_list(&self, key: Key) -> Result<Option<&'a [Value]>, FileFault>
        ensures { result_map (option_map (λ vs. items_view vs.now)) result
            ≡ optional_list_at self.now.location key (table_view self.now.table.now) }
    {
        match self.value(key) {
            None => Ok(None),
            Some(value) => Ok(Some(self.list_in(key, value)?)),
        }
    }

    /// A value at a key as text (B4).
    pub fn text_in<'b>(&self, key: Key, value: &'b Value) -> Result<&'b str, FileFault>
        ensures { result_map (λ s. s.now) result ≡ text_in self.now.location key (view value.now) }
    {
        value.as_str().ok_or(self.fault(key, Cause::WrongType))
    }

    /// A value at a key as a number (B4).
    pub fn integer_in(&self, key: Key, value: &Value) -> Result<i64, FileFault>
        ensures { result ≡ integer_in self.now.location key (view value.now) }
    {
        value.as_integer().ok_or(self.fault(key, Cause::WrongType))
    }

    /// A value at a key as a list (B4).
    pub fn list_in<'b>(&self, key: Key, value: &'b Value) -> Result<&'b [Value], FileFault>
        ensures { result_map (λ vs. items_view vs.now) result
            ≡ list_in self.now.location key (view value.now) }
    {
        match value.as_array() {
            Some(items) => Ok(items.as_slice()),
            None => Err(self.fault(key, Cause::WrongType)),
        }
    }

    /// Refuses a list with more items than a limit (B13).
    pub fn at_most(&self, most: usize, key: Key, items: &[Value]) -> Result<(), FileFault>
        ensures { result ≡ at_most most self.now.location key (items_view items.now) }
    {
        if count(items) <= most {
            Ok(())
        } else {
            Err(self.fault(key, Cause::BeyondLimit))
        }
    }

    /// Refuses a list of another number of items (B4).
    pub fn exactly(&self, number: usize, key: Key, items: &[Value]) -> Result<(), FileFault>
        ensures { result ≡ exactly number self.now.location key (items_view items.now) }
    {
        if count(items) == number {
            Ok(())
        } else {
            Err(self.fault(key, Cause::WrongType))
        }
    }

    /// The item of a list at an index from 0, as a list (B4).
    pub fn list_at<'b>(
        &self,
        key: Key,
        items: &'b [Value],
        index: usize,
    ) -> Result<&'b [Value], FileFault>
        ensures { result_map (λ vs. items_view vs.now) result
            ≡ list_item_at index self.now.location key (items_view items.now) }
    {
        match item_at(items, index) {
            Some(item) => self.list_in(key, item),
            None => Err(self.fault(key, Cause::WrongType)),
        }
    }

    /// Refuses a list with an item that is no table (B4).
    pub fn all_tables(&self, key: Key, items: &[Value]) -> Result<(), FileFault>
        ensures { result ≡ all_tables self.now.location key (items_view items.now) }
    {
        if are_tables(items) {
            Ok(())
        } else {
            Err(self.fault(key, Cause::WrongType))
        }
    }

    /// The value at a key, which has to be there (B3).
    pub fn required(&self, key: Key) -> Result<&'a Value, FileFault>
        ensures { result_map (λ v. view v.now) result
            ≡ required_at self.now.location key (table_view self.now.table.now) }
    {
        self.value(key).ok_or(self.fault(key, Cause::MissingKey))
    }
}

/// The value at a key.
fn value_at<'a>(table: &'a Table, key: &str) -> Option<&'a Value>
    ensures { option_map (λ v. view v.now) result ≡ get_member key.now (table_view table.now) }
{
    table.get(key)
}

/// Whether the table has no key beside these.
fn has_only(table: &Table, known: &[Key]) -> bool
    ensures { result ≡ has_only known.now (table_view table.now) }
{
    each_key_is_among(known, table)
}

fn each_key_is_among(known: &[Key], table: &Table) -> bool
    ensures { result ≡ list_all (λ key. list_any (λ k. bytes_eq (key_text k) (string_bytes key)) known.now)
        (keys table.now) }
{
    table.keys().all(|key| is_among(known, key.as_str()))
}

fn is_among(known: &[Key], key: &str) -> bool
    ensures { result ≡ list_any (λ k. bytes_eq (key_text k) key.now) known.now }
{
    known.iter().any(|k| k.as_str() == key)
}

fn count(items: &[Value]) -> usize
    ensures { result ≡ count_of (items_view items.now) }
{
    items.len()
}

fn item_at(items: &[Value], index: usize) -> Option<&Value>
    ensures { option_map (λ v. view v.now) result ≡ get_item index (items_view items.now) }
{
    nth(items, index)
}

fn nth<T>(items: &[T], index: usize) -> Option<&T>
    ensures { option_copied result ≡ slice_get items.now index }
{
    items.get(index)
}

fn are_tables(items: &[Value]) -> bool
    ensures { result ≡ are_tables (items_view items.now) }
{
    each_is_a_table(items)
}

fn each_is_a_table(items: &[Value]) -> bool
    ensures { result ≡ list_all (λ item. is_some (as_table (view item))) items.now }
{
    items.iter().all(|item| item.as_table().is_some())
}
