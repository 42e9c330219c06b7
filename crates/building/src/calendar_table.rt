//! The calendar that a `[[calendar]]` table of a building file names.

ghost use Rattle.std.specs.Prelude.{true};
ghost use Rattle.building.specs.CalendarTable.{calendar_in};
ghost use Rattle.building.specs.EntryText.{entry_in};

use crate::building_refusal::BuildingFault;
use crate::entry_text::entry_in;
use crate::fields::Fields;
use crate::item_list::{ReadItem, read_items};
use crate::key::Key;
use crate::named_calendar::NamedCalendar;
use crate::section_tables::ReadTable;
use dates::Entry;
use points::{Listing, Name};
use sched::Calendar;
use std::alloc::Global;
use toml::Value;

/// The entries that a calendar has at most in the file (this profile's limit).
const MOST_ENTRIES: usize = 1_000;

/// Reads a calendar.
#[derive(Drop)]
pub(crate) struct CalendarTable {
    pub alloc: Global,
}

impl ReadTable<NamedCalendar> for CalendarTable {
    ghost meaning = { λ _. calendar_in };

    ghost is_sound = { λ _ _. true };

    #[tactic(auto, unfolding(crate::specs::CalendarTable::calendar_in))]
    fn read(&self, fields: &Fields<'_>, name: Name) -> Result<NamedCalendar, BuildingFault> {
        let key = Key::Entries;
        let listed = fields.list(key)?;
        fields.at_most(MOST_ENTRIES, key, listed)?;
        let entries = read_items(self.alloc, &EntryItem { fields, key }, listed)?;
        let calendar = Calendar {
            entries: Listing::from_vec(entries),
        };
        Ok(NamedCalendar { name, calendar })
    }
}

/// Reads an entry of a calendar.
#[derive(Drop)]
struct EntryItem<'a> {
    fields: &'a Fields<'a>,
    key: Key,
}

impl ReadItem<Entry> for EntryItem<'_> {
    ghost meaning = { λ reader. entry_in reader.fields.now.location reader.key };

    ghost is_sound = { λ _ _. true };

    fn read(&self, item: &Value) -> Result<Entry, BuildingFault> {
        Ok(entry_in(self.fields, self.key, item)?)
    }
}
