//! The items of a key's value, in the order in which they are read.

use crate::faulty_item::{Content, FaultyItem};
use crate::item_path::ItemPath;
use crate::remark::Remark;
use crate::remarks::remark_on;
use crate::table_at::TableAt;
use crate::table_kind::{ItemType, Shape};
use building::{Cause, Key};
use toml::Value;

/// A key of a table at which a cause may hold.
#[derive(Clone, Copy)]
pub(crate) struct KeyAt<'a> {
    pub at: TableAt<'a>,
    pub key: Key,
    pub cause: Cause,
}

impl<'a> KeyAt<'a> {
    /// The first item at which the cause holds.
    pub fn first_item(&self) -> Option<FaultyItem<'a>> {
        let path = self.at.path(self.key.as_str());
        match (self.at.value(self.key), self.cause) {
            (None, Cause::MissingKey) => self.missing(path),
            (None, _) => None,
            (Some(value), _) => self.in_value(path, value),
        }
    }

    /// B3: nothing at the key. An exception has a calendar in place of an entry, or an entry in place of a calendar.
    fn missing(&self, path: ItemPath<'a>) -> Option<FaultyItem<'a>> {
        let other = match (self.at.exception, self.key) {
            (Some(_), Key::Entry) => self.at.value(Key::Calendar),
            (Some(_), Key::Calendar) => self.at.value(Key::Entry),
            _ => None,
        };
        match other {
            Some(_) => None,
            None => Some(FaultyItem {
                path,
                content: Content::Nothing,
                remark: self.expected(self.key),
            }),
        }
    }

    /// What a key takes.
    fn expected(&self, key: Key) -> Remark<'a> {
        Remark::Expected {
            what: self.at.kind.taken_by(key),
        }
    }

    fn in_value(&self, path: ItemPath<'a>, value: &'a Value) -> Option<FaultyItem<'a>> {
        match self.at.kind.shape_of(self.key) {
            Shape::One => self.at_item(path, &[], value),
            Shape::List { most } => self.in_list(path, self.key, most, value),
            Shape::Week => self.in_week(path, value),
        }
    }

    /// The value itself, where the cause holds of it.
    fn at_item(
        &self,
        path: ItemPath<'a>,
        earlier: &'a [Value],
        value: &'a Value,
    ) -> Option<FaultyItem<'a>> {
        Some(FaultyItem {
            path,
            content: Content::Value(value),
            remark: remark_on(&self.at, self.key, self.cause, earlier, value)?,
        })
    }

    /// The first item of a list at which the cause holds, or the list where it holds of it as a whole. It is such a
    /// list as stands at the key `like`.
    fn in_list(
        &self,
        path: ItemPath<'a>,
        like: Key,
        most: usize,
        value: &'a Value,
    ) -> Option<FaultyItem<'a>> {
        match (value.as_array(), self.cause) {
            (None, Cause::WrongType) => Some(FaultyItem {
                path,
                content: Content::Value(value),
                remark: self.expected(like),
            }),
            (None, _) => None,
            (Some(items), Cause::BeyondLimit) => self.too_many(path, most, items.as_slice().len()),
            (Some(items), _) => self.in_items(path, items.as_slice()),
        }
    }

    /// B13: more items than a limit allows.
    fn too_many(&self, path: ItemPath<'a>, most: usize, count: usize) -> Option<FaultyItem<'a>> {
        if count <= most {
            return None;
        }
        let name = match self.at.kind.item_type(self.key) {
            ItemType::Table => "tables",
            _ => "items",
        };
        Some(FaultyItem {
            path,
            content: Content::Items { count, name },
            remark: Remark::AtMost { most },
        })
    }

    fn in_items(&self, path: ItemPath<'a>, items: &'a [Value]) -> Option<FaultyItem<'a>> {
        for (index, item) in items.iter().enumerate() {
            if let Some(found) = self.at_item(path.at(index + 1), &items[..index], item) {
                return Some(found);
            }
        }
        None
    }

    /// The same in seven lists, Monday's first.
    fn in_week(&self, path: ItemPath<'a>, value: &'a Value) -> Option<FaultyItem<'a>> {
        match (value.as_array(), self.cause) {
            (Some(days), Cause::WrongType) if days.as_slice().len() != 7 => Some(FaultyItem {
                path,
                content: Content::Items {
                    count: days.as_slice().len(),
                    name: "items",
                },
                remark: self.expected(self.key),
            }),
            (Some(days), _) => self.in_days(path, days.as_slice()),
            (None, _) => self.in_list(path, self.key, 7, value),
        }
    }

    fn in_days(&self, path: ItemPath<'a>, days: &'a [Value]) -> Option<FaultyItem<'a>> {
        for (index, day) in days.iter().enumerate() {
            if let Some(found) = self.in_list(path.on_day(index + 1), Key::Times, 100, day) {
                return Some(found);
            }
        }
        None
    }
}
