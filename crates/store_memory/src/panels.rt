//! What is kept of the panels.
ghost use Rattle.std.specs.Prelude.{◌≡◌, ℕ, ◌≤◌, IfOk, IsSome, OnOk, None};
ghost use Rattle.std.specs.List.{All};
ghost use Rattle.points.specs.Run.{IsRun};
ghost use Rattle.store.specs.Change.{with_each, with_next, with_row, without_rows};
ghost use Rattle.store_memory.specs.Held.{Grows, KeepsRoom, next_of, row_of, slot_of, stands_panel, table_at};
ghost use Rattle.store.specs.Listed.{AreTexts};
ghost use Rattle.store_memory.specs.Slots.{IsStanding};
ghost use Rattle.points.specs.Texts.{Text};

use crate::found_last::{find, index_of};
use crate::panel_table::PanelTable;
use indexmap::IndexMap;
use points::{CommandRow, Name, NumberedRow};
use std::alloc::{AllocError, Global};
use store::{KeptRow, NextNumber, RowsBelow};

/// The next numbers of panels and the rows of their commands. A panel of which nothing is kept may have a
/// table too, which makes room for it.
#[derive(Drop)]
pub struct Panels {
    tables: IndexMap<Name, PanelTable>,
    // The index of the table that was found last.
    last: usize,
}

impl Panels {
    /// Nothing is kept of any panel.
    pub fn new(alloc: Global) -> Self
        ensures { (panel : Text) → table_at result panel ≡ None }
    {
        Panels {
            tables: IndexMap::new(alloc),
            last: 0,
        }
    }

    /// The next number of a panel.
    pub fn next(&mut self, panel: &Name) -> u64
        ensures next { result ≡ next_of self.old panel.now }
        ensures same { self.new.tables ≡ self.old.tables }
    {
        match find(&self.tables, &mut self.last, panel) {
            Some(table) => table.next,
            None => 1,
        }
    }

    /// The row under a number of a panel.
    pub fn row(&mut self, panel: &Name, number: u64) -> Option<CommandRow>
        ensures row { result ≡ row_of self.old panel.now number }
        ensures same { self.new.tables ≡ self.old.tables }
    {
        match find(&self.tables, &mut self.last, panel) {
            Some(table) => table.row(number),
            None => None,
        }
    }

    /// The rows of a panel at the numbers from `from` up to and without `upto`, then those from `upto` on
    /// that follow without gap.
    pub fn run(
        &mut self,
        alloc: Global,
        panel: &Name,
        from: u64,
        upto: u64,
    ) -> Result<Vec<NumberedRow>, AllocError>
        requires { from ≤ upto }
        ensures run { IfOk result (λ run. IsRun (row_of self.old panel.now) from upto run.items) }
        ensures same { self.new.tables ≡ self.old.tables }
    {
        match find(&self.tables, &mut self.last, panel) {
            Some(table) => table.run(alloc, from, upto),
            None => Ok(Vec::new(alloc)),
        }
    }

    /// The panels of which anything is kept.
    pub fn names(&self, alloc: Global) -> Result<Vec<Name>, AllocError>
        ensures { IfOk result (λ names. AreTexts (λ panel. IsStanding stands_panel (table_at self.now panel)) names.items) }
    {
        let mut names = Vec::new(alloc);
        for (name, table) in &self.tables {
            if table.stands() {
                names.push(*name)?;
            }
        }
        names.sort_unstable();
        Ok(names)
    }

    // Makes a table for a panel that has none.
    fn make_table(&mut self, alloc: Global, panel: &Name) -> Result<(), AllocError>
        ensures room { OnOk result (IsSome (table_at self.new panel.now)) }
        ensures grows { Grows self.old self.new }
    {
        if find(&self.tables, &mut self.last, panel).is_none() {
            self.tables.insert(*panel, PanelTable::new(alloc))?;
        }
        Ok(())
    }

    // Makes a table with an entry for a number, for a panel that has no table.
    fn make_table_for(&mut self, alloc: Global, panel: &Name, number: u64) -> Result<(), AllocError>
        requires { table_at self.old panel.now ≡ None }
        ensures room { OnOk result (IsSome (slot_of self.new panel.now number)) }
        ensures grows { Grows self.old self.new }
    {
        let mut table = PanelTable::new(alloc);
        table.make_room(number)?;
        self.tables.insert(*panel, table)?;
        Ok(())
    }

    // Makes an entry for a number in a panel's table, and the table where the panel has none.
    fn make_slot(&mut self, alloc: Global, panel: &Name, number: u64) -> Result<(), AllocError>
        ensures room { OnOk result (IsSome (slot_of self.new panel.now number)) }
        ensures grows { Grows self.old self.new }
    {
        let Some(index) = index_of(&self.tables, &mut self.last, panel) else {
            return self.make_table_for(alloc, panel, number);
        };
        match self.tables.get_index_mut(index) {
            Some(table) => table.make_room(number),
            None => Ok(()),
        }
    }

    /// Makes room for the next numbers of panels.
    pub fn make_room_for_nexts(
        &mut self,
        alloc: Global,
        nexts: &[NextNumber],
    ) -> Result<(), AllocError>
        ensures room { OnOk result (All (λ item. IsSome (table_at self.new item.panel)) nexts.now) }
        ensures grows { Grows self.old self.new }
    {
        for item in nexts {
            self.make_table(alloc, &item.panel)?;
        }
        Ok(())
    }

    /// Makes room for rows.
    pub fn make_room_for_rows(&mut self, alloc: Global, rows: &[KeptRow]) -> Result<(), AllocError>
        ensures room { OnOk result (All (λ item. IsSome (slot_of self.new item.panel item.number)) rows.now) }
        ensures grows { Grows self.old self.new }
    {
        for item in rows {
            self.make_slot(alloc, &item.panel, item.number)?;
        }
        Ok(())
    }

    fn set_next(&mut self, item: &NextNumber)
        requires { IsSome (table_at self.old item.now.panel) }
        ensures next { (q : Text) → next_of self.new q ≡ with_next item.now (next_of self.old) q }
        ensures rows { (q : Text) (n : ℕ) → row_of self.new q n ≡ row_of self.old q n }
        ensures room { KeepsRoom self.old self.new }
    {
        let Some(index) = index_of(&self.tables, &mut self.last, &item.panel) else {
            return;
        };
        if let Some(table) = self.tables.get_index_mut(index) {
            table.next = item.next;
        }
    }

    fn set_row(&mut self, item: &KeptRow)
        requires { IsSome (slot_of self.old item.now.panel item.now.number) }
        ensures rows { (q : Text) (n : ℕ) → row_of self.new q n ≡ with_row item.now (row_of self.old) q n }
        ensures next { (q : Text) → next_of self.new q ≡ next_of self.old q }
        ensures room { KeepsRoom self.old self.new }
    {
        let Some(index) = index_of(&self.tables, &mut self.last, &item.panel) else {
            return;
        };
        if let Some(table) = self.tables.get_index_mut(index) {
            table.set_row(item.number, item.row);
        }
    }

    fn drop_below(&mut self, item: &RowsBelow)
        ensures rows { (q : Text) (n : ℕ) → row_of self.new q n ≡ without_rows item.now (row_of self.old) q n }
        ensures next { (q : Text) → next_of self.new q ≡ next_of self.old q }
    {
        // No number is below 0: so it is for each panel of at most 1,000 numbers.
        if item.number == 0 {
            return;
        }
        let Some(index) = index_of(&self.tables, &mut self.last, &item.panel) else {
            return;
        };
        if let Some(table) = self.tables.get_index_mut(index) {
            table.drop_below(item.number);
        }
    }

    /// Puts next numbers for which room was made.
    pub fn put_nexts(&mut self, nexts: &[NextNumber])
        requires { All (λ item. IsSome (table_at self.old item.panel)) nexts.now }
        ensures next { next_of self.new ≡ with_each with_next nexts.now (next_of self.old) }
        ensures rows { row_of self.new ≡ row_of self.old }
        ensures room { KeepsRoom self.old self.new }
    {
        for item in nexts {
            self.set_next(item);
        }
    }

    /// Puts rows for which room was made.
    pub fn put_rows(&mut self, rows: &[KeptRow])
        requires { All (λ item. IsSome (slot_of self.old item.panel item.number)) rows.now }
        ensures rows { row_of self.new ≡ with_each with_row rows.now (row_of self.old) }
        ensures next { next_of self.new ≡ next_of self.old }
    {
        for item in rows {
            self.set_row(item);
        }
    }

    /// Takes rows out.
    pub fn drop_rows(&mut self, dropped: &[RowsBelow])
        ensures rows { row_of self.new ≡ with_each without_rows dropped.now (row_of self.old) }
        ensures next { next_of self.new ≡ next_of self.old }
    {
        for item in dropped {
            self.drop_below(item);
        }
    }
}
