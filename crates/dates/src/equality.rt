//! A law of `==` on entries.
ghost use Rattle.std.specs.Prelude.{◌≡◌, ◌↔◌, true};
ghost use Rattle.dates.specs.declared.entry.Entry.{Entry as Declared};

use crate::Entry;

/// A law: `==` says whether two entries are the same.
pub fn equal_entries_are_the_same()
    ensures { (a b : Declared) → (⟦<Entry as PartialEq>⟧.eq a b ≡ true) ↔ (a ≡ b) }
{}
