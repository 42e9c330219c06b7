//! Names in their order, found by an index.
ghost use Rattle.std.specs.Prelude.{◌≡◌, not, [], ◌∷◌, ◌++◌, if◌then◌else◌, IfOk, OnErr, position};
ghost use Rattle.std.specs.List.{list_any};
ghost use Rattle.std.specs.Str.{bytes_eq};
ghost use Rattle.points.specs.NameIndex.{is_among};

use crate::name::Name;
use std::alloc::{AllocError, Global};
use std::collections::HashMap;
use std::marker::Model;

/// Names, each once, in the order in which they came. One is found by an index, in about the same time
/// whatever their number. Contracts see the list.
#[derive(Drop)]
pub struct NameIndex {
    names: Vec<Name>,
    positions: HashMap<Name, usize>,
}

impl Model for NameIndex {
    ghost use Rattle.std.specs.Prelude.{List, ℕ};
    ghost use Rattle.points.specs.NameIndex.{IsIndex};

    ghost Value = { List (List ℕ) };

    ghost view = { λ names. names.names.items };

    ghost invariant = { λ names. IsIndex names.positions names.names.items };
}

impl NameIndex {
    /// No names.
    pub fn new(alloc: Global) -> Self
        ensures { result ≡ [] }
    {
        NameIndex {
            names: Vec::new(alloc),
            positions: HashMap::new(alloc),
        }
    }

    /// Puts a name last, unless it is there already, and answers whether it was put there.
    pub fn insert(&mut self, name: Name) -> Result<bool, AllocError>
        ensures new { IfOk result (λ new. new ≡ not (is_among name self.old)) }
        ensures names { IfOk result (λ new. self.new ≡ (if new then self.old ++ name ∷ [] else self.old)) }
        ensures unchanged { OnErr result (self.new ≡ self.old) }
    {
        if self.contains(&name) {
            return Ok(false);
        }
        let position = self.as_slice().len();
        self.names.reserve(1)?;
        self.positions.insert(name, position)?;
        self.names.push(name)?;
        Ok(true)
    }

    /// Whether the name is one of them.
    pub fn contains(&self, name: &Name) -> bool
        ensures { result ≡ is_among name.now self.now }
    {
        self.position(name).is_some()
    }

    /// The position of the name in the list, from 0.
    pub fn position(&self, name: &Name) -> Option<usize>
        ensures { result ≡ position (λ n. bytes_eq n name.now) self.now }
    {
        self.positions.get(name).copied()
    }

    /// The names as a slice.
    pub fn as_slice(&self) -> &[Name]
        ensures { result.now ≡ self.now }
    {
        self.names.as_slice()
    }
}
