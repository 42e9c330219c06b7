//! A store in memory.
ghost use Rattle.std.specs.Prelude.{◌≡◌, OnOk, false, map};
ghost use Rattle.store.specs.Change.{CanStand, with_change, with_last_tick};
ghost use Rattle.store_memory.specs.Memory.{HasRoom, standing_of, tables_of};
ghost use Rattle.store.specs.Standing.{sound};
ghost use Rattle.store.specs.Tables.{no_tables};

use crate::arrays::Arrays;
use crate::calendars::Calendars;
use crate::panels::Panels;
use crate::shown_values::ShownValues;
use crate::spelled_entry::{SpelledEntry, spell};
use dates::Entry;
use points::{CommandRow, Name, NumberedRow, PriorityArray};
use std::alloc::{AllocError, Global};
use store::{Change, Names, Store, StoreFault};

/// A store that keeps its tables in memory, and so as long as the program runs. It fails for lack of memory
/// alone.
#[derive(Drop)]
pub struct MemStore {
    alloc: Global,
    panels: Panels,
    arrays: Arrays,
    shown: ShownValues,
    calendars: Calendars,
    last_tick: Option<i64>,
}

// The moment of the last tick after a change.
fn last_of(last: Option<i64>, changed: Option<i64>) -> Option<i64>
    ensures { result ≡ with_last_tick changed last }
{
    match changed {
        Some(_) => changed,
        None => last,
    }
}

impl MemStore {
    /// A store whose tables are empty.
    pub fn new(alloc: Global) -> Self
        ensures empty { (standing_of result).content ≡ sound no_tables }
        ensures open { (standing_of result).is_shut ≡ false }
        ensures failures { (standing_of result).failures ≡ 0 }
        ensures honest { (standing_of result).is_honest }
    {
        MemStore {
            alloc,
            panels: Panels::new(alloc),
            arrays: Arrays::new(alloc),
            shown: ShownValues::new(alloc),
            calendars: Calendars::new(alloc),
            last_tick: None,
        }
    }

    // Makes an entry for each item of a change that has none. The tables stay as they are.
    fn make_room(&mut self, change: &Change, imported: &[SpelledEntry]) -> Result<(), AllocError>
        ensures room { OnOk result (HasRoom change.now imported.now self.new) }
        ensures same { tables_of self.new ≡ tables_of self.old }
    {
        self.panels.make_room_for_nexts(self.alloc, &change.nexts)?;
        self.panels.make_room_for_rows(self.alloc, &change.rows)?;
        self.arrays.make_room(&change.places)?;
        self.shown.make_room(&change.shown)?;
        self.calendars.make_room(self.alloc, imported)
    }

    // Writes a change for which room was made.
    fn put(&mut self, change: &Change, imported: &[SpelledEntry])
        requires room { HasRoom change.now imported.now self.old }
        requires can_stand { CanStand change.now }
        requires imported { map (λ x. x.item) imported.now ≡ change.now.imported.items }
        ensures { tables_of self.new ≡ with_change change.now (tables_of self.old) }
    {
        self.panels.put_nexts(&change.nexts);
        self.panels.put_rows(&change.rows);
        self.panels.drop_rows(&change.dropped);
        self.arrays.put(&change.places);
        self.shown.put(&change.shown);
        self.calendars.put(imported);
        self.last_tick = last_of(self.last_tick, change.last_tick);
    }
}

impl Store for MemStore {
    ghost use Rattle.store_memory.specs.Memory.{standing_of};

    ghost standing = { standing_of };

    fn panel_next(&mut self, panel: &Name) -> Result<u64, StoreFault> {
        Ok(self.panels.next(panel))
    }

    fn command(&mut self, panel: &Name, number: u64) -> Result<Option<CommandRow>, StoreFault> {
        Ok(self.panels.row(panel, number))
    }

    fn commands_run(
        &mut self,
        panel: &Name,
        from: u64,
        upto: u64,
    ) -> Result<Vec<NumberedRow>, StoreFault> {
        Ok(self.panels.run(self.alloc, panel, from, upto)?)
    }

    fn array(&mut self, point: &Name) -> Result<PriorityArray, StoreFault> {
        Ok(self.arrays.array(point)?)
    }

    fn shown(&mut self, schedule: &Name) -> Result<Option<Option<i64>>, StoreFault> {
        Ok(self.shown.shown(schedule))
    }

    fn last_tick(&mut self) -> Result<Option<i64>, StoreFault> {
        Ok(self.last_tick)
    }

    fn entries(&mut self, calendar: &Name) -> Result<Vec<Entry>, StoreFault> {
        Ok(self.calendars.entries(self.alloc, calendar)?)
    }

    fn names(&mut self) -> Result<Names, StoreFault> {
        Ok(Names {
            panels: self.panels.names(self.alloc)?,
            points: self.arrays.names(self.alloc)?,
            schedules: self.shown.names(self.alloc)?,
            calendars: self.calendars.names(self.alloc)?,
        })
    }

    fn commit(&mut self, change: &Change) -> Result<(), StoreFault> {
        let imported = spell(self.alloc, &change.imported)?;
        self.make_room(change, &imported)?;
        self.put(change, &imported);
        Ok(())
    }

    fn failures(&self) -> u64 {
        0
    }
}
