//! What the calendars that an import names know.
ghost use Rattle.std.specs.Prelude.{◌≡◌, ◌++◌, ◌∷◌, [], Bool, List, OnOk, string_bytes};
ghost use Rattle.std.specs.Bool.{IsTrue};
ghost use Rattle.std.specs.Result.{result_err};
ghost use Rattle.building.specs.Building.{Building};
ghost use Rattle.desk_clock.specs.Knowing.{Knows, has_in_file, in_file, is_read};
ghost use Rattle.dates.specs.Entry.{spelling};
ghost use Rattle.store.specs.declared.change.ImportedEntry.{ImportedEntry as an_item};
ghost use Rattle.store.specs.Standing.{IsOpen, Reads};
ghost use Rattle.points.specs.Texts.{Text};

use building::NamedCalendar;
use points::Name;
use std::alloc::{AllocError, Global};
use std::collections::BTreeMap;
use store::{ImportedEntry, Store, StoreFault};
use store_memory::{Calendars, SpelledEntry};

/// The entries of the calendars that were read, of the file and imported, and those that the import adds.
#[derive(Drop)]
pub struct Known {
    pub(crate) texts: Calendars,
    /// The calendars whose entries were read.
    pub(crate) read: BTreeMap<Name, ()>,
}

impl Known {
    /// No calendar was read, and nothing is added.
    pub fn new(alloc: Global) -> Self
        ensures { (building : Building) (table : Text → Text → Bool) → Knows result building table [] }
    {
        Known {
            texts: Calendars::new(alloc),
            read: BTreeMap::new(alloc),
        }
    }
}

/// Reads the entries of a calendar, if they were not read before: those of the file and those that were imported.
pub fn read_once<S: Store>(
    alloc: Global,
    store: &mut S,
    known: &mut Known,
    calendar: &NamedCalendar,
) -> Result<(), StoreFault>
    requires open { IsOpen (S.standing store.old) }
    ensures reads { Reads (result_err result) (S.standing store.old) (S.standing store.new) }
    ensures is_read { OnOk result (IsTrue (is_read known.new calendar.now.name)) }
    ensures knows { (S.standing store.new).is_honest → (building : Building) (items : List an_item)
        → ((text : Text) → in_file building calendar.now.name text ≡ has_in_file calendar.now text)
        → Knows known.old building (S.standing store.old).content.tables.imported items
        → OnOk result (Knows known.new building (S.standing store.old).content.tables.imported items) }
{
    if known.read.contains_key(&calendar.name) {
        return Ok(());
    }
    let imported = store.entries(&calendar.name)?;
    known
        .texts
        .keep(alloc, &calendar.name, imported.as_slice())?;
    known.texts.keep(alloc, &calendar.name, calendar.calendar.entries.as_slice())?;
    known.read.insert(calendar.name, ())?;
    Ok(())
}

/// Knows one item more.
pub fn add(
    alloc: Global,
    known: &mut Known,
    item: &ImportedEntry,
    text: String,
) -> Result<(), AllocError>
    requires { string_bytes text ≡ spelling item.now.entry }
    ensures is_read { (name : Text) → is_read known.new name ≡ is_read known.old name }
    ensures knows { OnOk result ((building : Building) (table : Text → Text → Bool) (items : List an_item)
        → Knows known.old building table items → Knows known.new building table (items ++ item.now ∷ [])) }
{
    let spelled = [SpelledEntry { item: *item, text }];
    known.texts.make_room(alloc, &spelled)?;
    known.texts.put(&spelled);
    Ok(())
}
