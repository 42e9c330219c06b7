//! The item that a fault names.

use crate::faulty_item::{Content, FaultyItem};
use crate::items::KeyAt;
use crate::remark::Remark;
use crate::table_at::{TableAt, list_in, text_in};
use crate::table_kind::TableKind;
use building::{Cause, FileFault, Key};
use toml::{Table, Value};

/// The item that a fault of a file names, where it is found.
pub(crate) fn item_at_fault<'a>(top: &'a Table, fault: &FileFault) -> Option<FaultyItem<'a>> {
    let at = TableAt::of_fault(top, fault)?;
    match (fault.cause, fault.key) {
        (Cause::UnknownKey, _) => other_key_in(&at),
        (cause, Key::Exception) => at_exceptions(&at, cause),
        (cause, key) => KeyAt { at, key, cause }.first_item(),
    }
}

/// B2: a key that the table, or one of its exceptions, may not have.
fn other_key_in<'a>(at: &TableAt<'a>) -> Option<FaultyItem<'a>> {
    match (first_other_key(at), at.kind) {
        (Some(item), _) => Some(item),
        (None, TableKind::Point) => key_of_other_kind(at),
        (None, TableKind::Schedule) => first_in_exceptions(at, Cause::UnknownKey),
        (None, _) => None,
    }
}

/// The first key by its bytes that tables of this kind may not have.
fn first_other_key<'a>(at: &TableAt<'a>) -> Option<FaultyItem<'a>> {
    for key in at.table.keys() {
        if !at.kind.has(key.as_str()) {
            return Some(key_item(at, key.as_str(), Remark::OtherKey(at.kind)));
        }
    }
    None
}

fn key_item<'a>(at: &TableAt<'a>, key: &'a str, remark: Remark<'a>) -> FaultyItem<'a> {
    FaultyItem {
        path: at.path(key),
        content: Content::Key,
        remark,
    }
}

/// A key of a point that points of another kind have.
fn key_of_other_kind<'a>(at: &TableAt<'a>) -> Option<FaultyItem<'a>> {
    match text_in(at.table, Key::Kind)? {
        "binary" => first_of(
            at,
            &[Key::States, Key::Low, Key::High],
            "\"binary\", which takes name, kind and default",
        ),
        "multi" => first_of(
            at,
            &[Key::Low, Key::High],
            "\"multi\", which takes name, kind, states and default",
        ),
        "analog" => first_of(
            at,
            &[Key::States],
            "\"analog\", which takes name, kind, low, high and default",
        ),
        _ => None,
    }
}

/// The first of these keys that the table has.
fn first_of<'a>(at: &TableAt<'a>, keys: &[Key], kind: &'static str) -> Option<FaultyItem<'a>> {
    for key in keys {
        if at.value(*key).is_some() {
            return Some(key_item(at, key.as_str(), Remark::OtherKind { kind }));
        }
    }
    None
}

/// The first item of the exceptions at which a cause holds: the list, an item that is no table, or what stands in one.
fn at_exceptions<'a>(at: &TableAt<'a>, cause: Cause) -> Option<FaultyItem<'a>> {
    let list = KeyAt {
        at: *at,
        key: Key::Exception,
        cause,
    };
    match list.first_item() {
        Some(item) => Some(item),
        None => first_in_exceptions(at, cause),
    }
}

fn first_in_exceptions<'a>(at: &TableAt<'a>, cause: Cause) -> Option<FaultyItem<'a>> {
    let exceptions = list_in(at.table, Key::Exception)?;
    for (index, item) in exceptions.iter().enumerate() {
        if let Some(found) = in_exception(at, index + 1, item, cause) {
            return Some(found);
        }
    }
    None
}

/// The first item of an exception at which a cause holds.
fn in_exception<'a>(
    at: &TableAt<'a>,
    position: usize,
    item: &'a Value,
    cause: Cause,
) -> Option<FaultyItem<'a>> {
    let exception = at.in_exception(position, item.as_table()?);
    match cause {
        Cause::UnknownKey => other_key_in_exception(&exception),
        _ => first_at_keys(exception, cause),
    }
}

/// B2 in an exception: a key that it may not have, or an entry and a calendar.
fn other_key_in_exception<'a>(at: &TableAt<'a>) -> Option<FaultyItem<'a>> {
    match (
        first_other_key(at),
        at.value(Key::Entry),
        at.value(Key::Calendar),
    ) {
        (Some(item), _, _) => Some(item),
        (None, Some(_), Some(_)) => {
            Some(key_item(at, Key::Calendar.as_str(), Remark::BothPeriods))
        }
        _ => None,
    }
}

/// The first of an exception's keys, in the order in which they are read, at which a cause holds.
fn first_at_keys<'a>(at: TableAt<'a>, cause: Cause) -> Option<FaultyItem<'a>> {
    for key in [Key::Priority, Key::Entry, Key::Calendar, Key::Times] {
        if let Some(item) = (KeyAt { at, key, cause }).first_item() {
            return Some(item);
        }
    }
    None
}
