//! The entries that are imported into the calendars.
ghost use Rattle.std.specs.Prelude.{◌≡◌, ◌&&◌, ◌||◌, IfOk, IsSome, OnOk, None, map, string_bytes};
ghost use Rattle.std.specs.Bool.{IsTrue};
ghost use Rattle.std.specs.List.{All, list_any};
ghost use Rattle.std.specs.Str.{bytes_eq};
ghost use Rattle.dates.specs.Entry.{spelling};
ghost use Rattle.store.specs.Change.{with_each, with_imported};
ghost use Rattle.store_memory.specs.Held.{calendar_at, calendar_slot, imported_of, stands_calendar};
ghost use Rattle.store.specs.Listed.{AreTexts};
ghost use Rattle.store_memory.specs.Slots.{IsStanding};
ghost use Rattle.points.specs.Texts.{Text};

use crate::calendar_table::CalendarTable;
use crate::spelled_entry::SpelledEntry;
use dates::Entry;
use points::Name;
use std::alloc::{AllocError, Global};
use std::collections::BTreeMap;

/// The imported entries of calendars. A calendar without one may have a table too, which makes room for it.
#[derive(Drop)]
pub struct Calendars {
    tables: BTreeMap<Name, CalendarTable>,
}

impl Calendars {
    /// No entry is imported.
    pub fn new(alloc: Global) -> Self
        ensures { (calendar : Text) → calendar_at result calendar ≡ None }
    {
        Calendars {
            tables: BTreeMap::new(alloc),
        }
    }

    /// The entries of a calendar, in the byte order of their texts.
    pub fn entries(&self, alloc: Global, calendar: &Name) -> Result<Vec<Entry>, AllocError>
        ensures { IfOk result (λ entries. AreTexts (λ text. IsTrue (imported_of self.now calendar.now text)) (map spelling entries.items)) }
    {
        match self.tables.get(calendar) {
            Some(table) => table.list(alloc),
            None => Ok(Vec::new(alloc)),
        }
    }

    /// Whether the entry of a text is imported into a calendar.
    pub fn has(&self, calendar: &Name, text: &String) -> bool
        ensures { result ≡ imported_of self.now calendar.now (string_bytes text.now) }
    {
        match self.tables.get(calendar) {
            Some(table) => table.has(text),
            None => false,
        }
    }

    /// The calendars that have an entry.
    pub fn names(&self, alloc: Global) -> Result<Vec<Name>, AllocError>
        ensures { IfOk result (λ names. AreTexts (λ calendar. IsStanding stands_calendar (calendar_at self.now calendar)) names.items) }
    {
        let mut names = Vec::new(alloc);
        for (name, table) in &self.tables {
            if table.stands() {
                names.push(*name)?;
            }
        }
        Ok(names)
    }

    // Makes a table for a calendar that has none.
    fn make_table(&mut self, alloc: Global, calendar: &Name) -> Result<(), AllocError>
        ensures room { OnOk result (IsSome (calendar_at self.new calendar.now)) }
        ensures stays { (q text : Text) → IsSome (calendar_slot self.old q text) → IsSome (calendar_slot self.new q text) }
        ensures same { (q text : Text) → imported_of self.new q text ≡ imported_of self.old q text }
    {
        if !self.tables.contains_key(calendar) {
            self.tables.insert(*calendar, CalendarTable::new(alloc))?;
        }
        Ok(())
    }

    // Makes room for a text in a calendar's table.
    fn make_slot(&mut self, calendar: &Name, text: &String) -> Result<(), AllocError>
        requires { IsSome (calendar_at self.old calendar.now) }
        ensures room { OnOk result (IsSome (calendar_slot self.new calendar.now (string_bytes text.now))) }
        ensures stays { (named said : Text) → IsSome (calendar_slot self.old named said)
            → IsSome (calendar_slot self.new named said) }
        ensures same { (named said : Text) → imported_of self.new named said ≡ imported_of self.old named said }
    {
        match self.tables.get_mut(calendar) {
            Some(table) => table.make_room(text),
            None => Ok(()),
        }
    }

    /// Makes room for entries.
    pub fn make_room(&mut self, alloc: Global, spelled: &[SpelledEntry]) -> Result<(), AllocError>
        ensures room { OnOk result (All (λ x. IsSome (calendar_slot self.new x.item.calendar (spelling x.item.entry))) spelled.now) }
        ensures same { (q text : Text) → imported_of self.new q text ≡ imported_of self.old q text }
    {
        for entry in spelled {
            self.make_table(alloc, &entry.item.calendar)?;
            self.make_slot(&entry.item.calendar, &entry.text)?;
        }
        Ok(())
    }

    fn import(&mut self, spelled: &SpelledEntry)
        requires { IsSome (calendar_slot self.old spelled.now.item.calendar (spelling spelled.now.item.entry)) }
        ensures imported { (q text : Text) → imported_of self.new q text ≡ with_imported spelled.now.item (imported_of self.old) q text }
        ensures stays { (q text : Text) → IsSome (calendar_slot self.old q text) → IsSome (calendar_slot self.new q text) }
    {
        if let Some(table) = self.tables.get_mut(&spelled.item.calendar) {
            table.import(spelled);
        }
    }

    /// Puts entries for which room was made.
    pub fn put(&mut self, spelled: &[SpelledEntry])
        requires { All (λ x. IsSome (calendar_slot self.old x.item.calendar (spelling x.item.entry))) spelled.now }
        ensures { imported_of self.new ≡ with_each with_imported (map (λ x. x.item) spelled.now) (imported_of self.old) }
    {
        for entry in spelled {
            self.import(entry);
        }
    }

    /// Keeps entries of a calendar beside those that it has.
    pub fn keep(
        &mut self,
        alloc: Global,
        calendar: &Name,
        entries: &[Entry],
    ) -> Result<(), AllocError>
        ensures { OnOk result ((q text : Text) → imported_of self.new q text
            ≡ ((bytes_eq calendar.now q && list_any (bytes_eq text) (map spelling entries.now)) || imported_of self.old q text)) }
    {
        self.make_table(alloc, calendar)?;
        match self.tables.get_mut(calendar) {
            Some(table) => table.keep_each(alloc, entries),
            None => Ok(()),
        }
    }
}
