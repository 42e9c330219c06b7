//! The entries that are imported into one calendar.
ghost use Rattle.std.specs.Prelude.{◌≡◌, ◌||◌, IfOk, IsSome, OnOk, None, map, string_bytes};
ghost use Rattle.std.proofs.Props.{props};
ghost use Rattle.std.specs.Bool.{IsTrue};
ghost use Rattle.std.specs.List.{list_any};
ghost use Rattle.std.specs.Str.{bytes_eq};
ghost use Rattle.dates.specs.Entry.{spelling};
ghost use Rattle.store.specs.Listed.{AreTexts};
ghost use Rattle.store_memory.specs.Slots.{AreSpelled, entry_slot, has_entries, has_text};
ghost use Rattle.points.specs.Texts.{Text};

use crate::spelled_entry::SpelledEntry;
use dates::Entry;
use std::alloc::{AllocError, Global};
use std::collections::BTreeMap;

/// Entries by their texts. A text whose entry is not imported may stand here too, which makes room for it.
#[derive(Drop)]
pub struct CalendarTable {
    pub entries: BTreeMap<String, Option<Entry>>,
    ghost are_spelled: { AreSpelled entries } by { Prim.hlevel props },
}

impl CalendarTable {
    /// No entry is imported.
    pub fn new(alloc: Global) -> Self
        ensures { (text : Text) → entry_slot result.entries text ≡ None }
    {
        CalendarTable {
            entries: BTreeMap::new(alloc),
        }
    }

    /// Makes room for a text.
    pub fn make_room(&mut self, text: &String) -> Result<(), AllocError>
        ensures room { OnOk result (IsSome (entry_slot self.new.entries (string_bytes text.now))) }
        ensures stays { (q : Text) → IsSome (entry_slot self.old.entries q) → IsSome (entry_slot self.new.entries q) }
        ensures same { (q : Text) → has_text self.new.entries q ≡ has_text self.old.entries q }
    {
        if !self.entries.contains_key(text) {
            self.entries.insert(text.clone()?, None)?;
        }
        Ok(())
    }

    /// Imports an entry for whose text there is room.
    pub fn import(&mut self, spelled: &SpelledEntry)
        requires { IsSome (entry_slot self.old.entries (spelling spelled.now.item.entry)) }
        ensures has { (q : Text)
            → has_text self.new.entries q ≡ (bytes_eq (spelling spelled.now.item.entry) q || has_text self.old.entries q) }
        ensures stays { (q : Text) → IsSome (entry_slot self.old.entries q) → IsSome (entry_slot self.new.entries q) }
    {
        if let Some(slot) = self.entries.get_mut(&spelled.text) {
            *slot = Some(spelled.item.entry);
        }
    }

    // Keeps an entry, whether there is room for its text or not.
    fn keep(&mut self, alloc: Global, entry: &Entry) -> Result<(), AllocError>
        ensures { OnOk result ((q : Text)
            → has_text self.new.entries q ≡ (bytes_eq (spelling entry.now) q || has_text self.old.entries q)) }
    {
        let text = entry.write(alloc)?;
        self.entries.insert(text, Some(*entry))?;
        Ok(())
    }

    /// Keeps entries beside those that it has, whether there is room for their texts or not.
    pub fn keep_each(&mut self, alloc: Global, entries: &[Entry]) -> Result<(), AllocError>
        ensures { OnOk result ((q : Text) → has_text self.new.entries q
            ≡ (list_any (bytes_eq q) (map spelling entries.now) || has_text self.old.entries q)) }
    {
        for entry in entries {
            self.keep(alloc, entry)?;
        }
        Ok(())
    }

    /// Whether the entry of a text is imported.
    pub fn has(&self, text: &String) -> bool
        ensures { result ≡ has_text self.now.entries (string_bytes text.now) }
    {
        match self.entries.get(text) {
            Some(slot) => slot.is_some(),
            None => false,
        }
    }

    /// Whether any entry is imported.
    pub fn stands(&self) -> bool
        ensures { result ≡ has_entries self.now.entries }
    {
        for text in self.entries.keys() {
            if self.has(text) {
                return true;
            }
        }
        false
    }

    /// The imported entries, in the byte order of their texts.
    pub fn list(&self, alloc: Global) -> Result<Vec<Entry>, AllocError>
        ensures { IfOk result (λ list. AreTexts (λ text. IsTrue (has_text self.now.entries text)) (map spelling list.items)) }
    {
        let mut list = Vec::new(alloc);
        for (_, slot) in &self.entries {
            if let Some(entry) = slot {
                list.push(*entry)?;
            }
        }
        Ok(list)
    }
}
