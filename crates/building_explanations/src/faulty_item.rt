//! The item that a fault names.

use crate::item_path::ItemPath;
use crate::quoting::ValueText;
use crate::remark::Remark;
use std::fmt;
use toml::Value;

/// The item that a fault names, and what is wrong with it. It is printed as a line, without the line end.
#[derive(Clone, Copy)]
pub(crate) struct FaultyItem<'a> {
    pub path: ItemPath<'a>,
    pub content: Content<'a>,
    pub remark: Remark<'a>,
}

/// What stands at the path of an item.
#[derive(Clone, Copy)]
pub(crate) enum Content<'a> {
    /// A key that may not stand there, whatever its value.
    Key,
    Value(&'a Value),
    /// Nothing, where something has to be.
    Nothing,
    /// A list of so many items.
    Items { count: usize, name: &'static str },
}

impl fmt::Display for FaultyItem<'_> {
    fn fmt<W: fmt::Write>(&self, f: &mut fmt::Formatter<W>) -> fmt::Result {
        write!(f, "{}", self.path)?;
        match self.content {
            Content::Key => {}
            Content::Value(value) => write!(f, " {}", ValueText(value))?,
            Content::Nothing => f.write_str(" is missing")?,
            Content::Items { count, name } => write!(f, " has {count} {name}")?,
        }
        write!(f, ": {}", self.remark)
    }
}
