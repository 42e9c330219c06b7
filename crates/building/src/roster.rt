//! Lists of named items that are searched by an index.

ghost use Rattle.std.specs.Prelude.{◌≡◌, IsTrue, [], ◌∷◌, map, slice_get, ◌++◌, false, find, option_copied, position, OnErr, OnOk};
ghost use Rattle.points.specs.NameIndex.{is_among};
ghost use Rattle.building.specs.Roster.{are_distinct, has_name, has_the_name};

use crate::named::Named;
use points::{Name, NameIndex};
use std::alloc::{AllocError, Global};
use std::marker::Model;

/// Named items, each name once, in the order in which they came. Contracts see the list of the items.
#[derive(Drop)]
pub struct Roster<T: Named> {
    items: Vec<T>,
    names: NameIndex,
}

impl<T: Named> Model for Roster<T> {
    ghost use Rattle.std.specs.Prelude.{◌≡◌, IsTrue, List, map};
    ghost use Rattle.building.specs.Roster.{are_distinct};

    ghost Value = { List T };

    ghost view = { λ roster. roster.items.items };

    ghost invariant = { λ roster. (roster.names ≡ map T.name_of roster.items.items) × IsTrue (are_distinct roster.names) };
}

impl<T: Named> Roster<T> {
    /// No items.
    pub fn new(alloc: Global) -> Self
        ensures { result ≡ [] }
    {
        Roster {
            items: Vec::new(alloc),
            names: NameIndex::new(alloc),
        }
    }

    /// Whether an item has the name.
    pub fn has(&self, name: &Name) -> bool
        ensures { result ≡ has_name T.name_of name.now self.now }
    {
        self.names.contains(name)
    }

    /// The index of the first item of the name, from 0.
    pub fn position(&self, name: &Name) -> Option<usize>
        ensures { result ≡ position (has_the_name T.name_of name.now) self.now }
    {
        self.names.position(name)
    }

    /// The first item of the name.
    pub fn find(&self, name: &Name) -> Option<&T>
        ensures { option_copied result ≡ find (has_the_name T.name_of name.now) self.now }
    {
        item_at(self.as_slice(), self.position(name)?)
    }

    /// Puts an item last, whose name no other has.
    pub fn push(&mut self, item: T) -> Result<(), AllocError>
    where
        T: Drop,
        requires new { has_name T.name_of (T.name_of item) self.old ≡ false }
        ensures pushed { OnOk result (self.new ≡ self.old ++ item ∷ []) }
        ensures unchanged { OnErr result (self.new ≡ self.old) }
    {
        self.items.reserve(1)?;
        push_name(&mut self.names, item.name())?;
        self.items.push(item)?;
        Ok(())
    }

    /// No two items have one name: what this says holds of each roster, and nothing is done.
    pub fn has_distinct_names(&self)
        ensures { IsTrue (are_distinct (map T.name_of self.now)) }
    {
        let _ = &self.names;
    }

    /// The items as a slice.
    pub fn as_slice(&self) -> &[T]
        ensures { result.now ≡ self.now }
    {
        self.items.as_slice()
    }
}

/// Puts a name last that is not among them.
fn push_name(names: &mut NameIndex, name: &Name) -> Result<(), AllocError>
    requires new { is_among name.now names.old ≡ false }
    ensures pushed { OnOk result (names.new ≡ names.old ++ name.now ∷ []) }
    ensures unchanged { OnErr result (names.new ≡ names.old) }
{
    names.insert(*name)?;
    Ok(())
}

fn item_at<T>(items: &[T], index: usize) -> Option<&T>
    ensures { option_copied result ≡ slice_get items.now index }
{
    items.get(index)
}
