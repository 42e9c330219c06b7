//! What is kept of one panel.
ghost use Rattle.std.specs.Prelude.{◌≡◌, ℕ, ◌≤◌, IfOk, IsSome, OnOk, Some, None, nat_lt, ◌==◌, if◌then◌else◌, cond};
ghost use Rattle.points.specs.Run.{IsRun, rows_between};
ghost use Rattle.store_memory.specs.Held.{kept_rows, slot_at, stands_panel};

use crate::row_slots::RowSlots;
use points::{CommandRow, NumberedRow};
use std::alloc::{AllocError, Global};

/// The next number of a panel, and the rows of its commands. A number without a row may have a slot, which makes room
/// for a row.
#[derive(Drop)]
pub struct PanelTable {
    pub next: u64,
    pub rows: RowSlots,
}

impl PanelTable {
    /// What stands for a panel of which nothing is kept.
    pub fn new(alloc: Global) -> Self
        ensures next { result.next ≡ 1 }
        ensures slots { (number : ℕ) → slot_at result number ≡ None }
    {
        PanelTable {
            next: 1,
            rows: RowSlots::new(alloc),
        }
    }

    /// The row under a number, if one is kept.
    pub fn row(&self, number: u64) -> Option<CommandRow>
        ensures { result ≡ kept_rows self.now number }
    {
        self.rows.row(number)
    }

    /// Makes a slot for a number that has none.
    pub fn make_room(&mut self, number: u64) -> Result<(), AllocError>
        ensures room { OnOk result (IsSome (slot_at self.new number)) }
        ensures stays { (n : ℕ) → IsSome (slot_at self.old n) → IsSome (slot_at self.new n) }
        ensures same { (n : ℕ) → kept_rows self.new n ≡ kept_rows self.old n }
        ensures next { self.new.next ≡ self.old.next }
    {
        self.rows.make_room(number)
    }

    /// Keeps a row under a number that has a slot.
    pub fn set_row(&mut self, number: u64, row: CommandRow)
        requires { IsSome (slot_at self.old number) }
        ensures slots { (n : ℕ) → slot_at self.new n ≡ cond (number == n) (Some (Some row)) (slot_at self.old n) }
        ensures next { self.new.next ≡ self.old.next }
    {
        self.rows.set_row(number, row);
    }

    /// Takes the slots below a number out.
    pub fn drop_below(&mut self, number: u64)
        ensures rows { (n : ℕ) → kept_rows self.new n ≡ (if nat_lt n number then None else kept_rows self.old n) }
        ensures next { self.new.next ≡ self.old.next }
    {
        self.rows.drop_below(number);
    }

    /// Whether anything is kept of the panel.
    pub fn stands(&self) -> bool
        ensures { result ≡ stands_panel self.now }
    {
        self.next != 1 || self.rows.has_row()
    }

    fn rows_between(
        &self,
        alloc: Global,
        from: u64,
        upto: u64,
    ) -> Result<Vec<NumberedRow>, AllocError>
        requires { from ≤ upto }
        ensures { IfOk result (λ rows. rows.items ≡ rows_between (kept_rows self.now) from upto) }
    {
        let mut rows = Vec::new(alloc);
        for number in from..upto {
            match self.row(number) {
                Some(row) => rows.push(NumberedRow { number, row })?,
                None => (),
            }
        }
        Ok(rows)
    }

    /// The rows at the numbers from `from` up to and without `upto`, then those from `upto` on that follow
    /// without gap.
    pub fn run(&self, alloc: Global, from: u64, upto: u64) -> Result<Vec<NumberedRow>, AllocError>
        requires { from ≤ upto }
        ensures { IfOk result (λ run. IsRun (kept_rows self.now) from upto run.items) }
    {
        let mut rows = self.rows_between(alloc, from, upto)?;
        for number in upto..u64::MAX {
            match self.row(number) {
                Some(row) => rows.push(NumberedRow { number, row })?,
                None => return Ok(rows),
            }
        }
        // So many rows have no room in memory.
        Err(AllocError)
    }
}
