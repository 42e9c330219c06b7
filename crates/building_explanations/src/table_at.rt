//! A table of a building file with its position in it.

use crate::item_path::ItemPath;
use crate::limits::Limits;
use crate::table_kind::{TableKind, kind_at};
use building::{Cause, FileFault, Key, Section};
use points::Kind;
use toml::{Table, Value};

/// A table of a building file with its position in it.
#[derive(Clone, Copy)]
pub(crate) struct TableAt<'a> {
    /// The top table of the file.
    pub top: &'a Table,
    pub kind: TableKind,
    /// The position of the table in its section, from 1.
    pub position: usize,
    pub table: &'a Table,
    /// Of an exception the schedule's table, and else the table itself.
    pub outer: &'a Table,
    /// Of an exception its position in the schedule, from 1.
    pub exception: Option<usize>,
    /// Of a schedule with a value outside a kind, and of its exceptions, the values that lie in the kind of each
    /// target.
    pub limits: Option<Limits>,
}

impl<'a> TableAt<'a> {
    /// The table that a fault names.
    pub fn of_fault(top: &'a Table, fault: &FileFault) -> Option<TableAt<'a>> {
        let table = table_at(top, fault.section, fault.position)?;
        Some(TableAt {
            top,
            kind: kind_at(fault),
            position: fault.position,
            table,
            outer: table,
            exception: None,
            limits: limits_at(top, table, fault),
        })
    }

    /// An exception of this schedule, by its position from 1.
    pub fn in_exception(self, exception: usize, table: &'a Table) -> TableAt<'a> {
        TableAt {
            kind: TableKind::Exception,
            table,
            exception: Some(exception),
            ..self
        }
    }

    /// Where the value at a key stands.
    pub fn path(&self, key: &'a str) -> ItemPath<'a> {
        ItemPath {
            exception: self.exception,
            key,
            day: None,
            index: None,
        }
    }

    /// The value at a key.
    pub fn value(&self, key: Key) -> Option<&'a Value> {
        self.table.get(key.as_str())
    }

    /// The name that the table gives itself, where it is a text.
    pub fn name(&self) -> Option<&'a str> {
        name_in(self.table)
    }
}

/// The table of a section and a position in it, from 1; of the section `Top` the top table.
fn table_at(top: &Table, section: Section, position: usize) -> Option<&Table> {
    match section {
        Section::Top => Some(top),
        _ => {
            let index = position.checked_sub(1)?;
            section_items(top, section).get(index)?.as_table()
        }
    }
}

/// The values that lie in the kind of each target of a schedule, where one outside them is looked for.
fn limits_at(top: &Table, schedule: &Table, fault: &FileFault) -> Option<Limits> {
    match (fault.section, fault.cause) {
        (Section::Schedule, Cause::OutsideKind) => {
            Some(limits_of(top, list_in(schedule, Key::Targets)?))
        }
        _ => None,
    }
}

fn limits_of(top: &Table, targets: &[Value]) -> Limits {
    let mut limits = Limits::NONE;
    for target in targets {
        if let Some(kind) = kind_of_target(top, target) {
            limits = limits.both(&Limits::of_kind(kind));
        }
    }
    limits
}

fn kind_of_target(top: &Table, target: &Value) -> Option<Kind> {
    kind_of_point(top, target.as_str()?)
}

/// The items of a section: none where its key is missing.
pub(crate) fn section_items(top: &Table, section: Section) -> &[Value] {
    match list_in(top, section_key(section)) {
        Some(items) => items,
        None => &[],
    }
}

fn section_key(section: Section) -> Key {
    match section {
        Section::Top => Key::File,
        Section::Point => Key::Point,
        Section::Panel => Key::Panel,
        Section::Calendar => Key::Calendar,
        Section::Schedule => Key::Schedule,
    }
}

/// The list at a key.
pub(crate) fn list_in(table: &Table, key: Key) -> Option<&[Value]> {
    Some(table.get(key.as_str())?.as_array()?.as_slice())
}

/// The text at a key.
pub(crate) fn text_in(table: &Table, key: Key) -> Option<&str> {
    table.get(key.as_str())?.as_str()
}

/// The number at a key.
pub(crate) fn number_in(table: &Table, key: Key) -> Option<i64> {
    table.get(key.as_str())?.as_integer()
}

/// The name that a table gives itself.
pub(crate) fn name_in(table: &Table) -> Option<&str> {
    text_in(table, Key::Name)
}

/// The position of the first of these tables with a name, from 1.
pub(crate) fn position_of_name(items: &[Value], name: &str) -> Option<usize> {
    for (index, item) in items.iter().enumerate() {
        if has_name(item, name) {
            return Some(index + 1);
        }
    }
    None
}

fn has_name(item: &Value, name: &str) -> bool {
    match item.as_table() {
        Some(table) => matches!(name_in(table), Some(text) if text == name),
        None => false,
    }
}

/// The kind of the point of a name.
pub(crate) fn kind_of_point(top: &Table, name: &str) -> Option<Kind> {
    let points = section_items(top, Section::Point);
    let position = position_of_name(points, name)?;
    kind_in(points.get(position.checked_sub(1)?)?.as_table()?)
}

/// The kind of the point of a table.
pub(crate) fn kind_in(table: &Table) -> Option<Kind> {
    match text_in(table, Key::Kind)? {
        "binary" => Some(Kind::Binary),
        "multi" => Some(Kind::Multistate {
            states: number_in(table, Key::States)?,
        }),
        "analog" => Some(Kind::Analog {
            low: number_in(table, Key::Low)?,
            high: number_in(table, Key::High)?,
        }),
        _ => None,
    }
}
