//! The rows of a panel, by their numbers.
ghost use Rattle.std.specs.Prelude.{◌≡◌, ◌↔◌, ℕ, ◌<◌, ◌==◌, nat_lt, [], length, IsSome, IsTrue, OnOk, Some, None, MatchOption, if◌then◌else◌};
ghost use Rattle.store_memory.specs.RowSlots.{AreRising, IsAt, IsCountBelow, has_row, number_at, row_for, slot_for};

use points::CommandRow;
use std::alloc::{AllocError, Global};
use std::collections::VecDeque;
use std::marker::Model;

/// A number and its row. A number without a row is room for one.
#[derive(Clone, Copy)]
pub struct RowSlot {
    pub number: u64,
    pub row: Option<CommandRow>,
}

/// Slots, each of a number of its own, in the order of the numbers. A panel's numbers come nearly in order, so that most
/// new ones go behind the last, and those that fall out stand at the front.
#[derive(Drop)]
pub struct RowSlots {
    slots: VecDeque<RowSlot>,
}

impl Model for RowSlots {
    ghost use Rattle.std.specs.Prelude.{List};
    ghost use Rattle.store_memory.specs.declared.row_slots.RowSlot.{RowSlot};
    ghost use Rattle.store_memory.specs.RowSlots.{AreRising};

    ghost Value = { List RowSlot };

    ghost view = { λ s. s.slots.items };

    ghost invariant = { λ s. AreRising s.slots.items };
}

impl RowSlots {
    /// No slots.
    pub fn new(alloc: Global) -> Self
        ensures { result ≡ [] }
    {
        RowSlots {
            slots: VecDeque::new(alloc),
        }
    }

    // Whether a number is past each that has a slot, as that of nearly every new command is.
    fn is_past_all(&self, number: u64) -> bool
        ensures { IsTrue result ↔ ((j : ℕ) → j < length self.now → number_at self.now j < number) }
    {
        match self.slots.back() {
            Some(last) => last.number < number,
            None => true,
        }
    }

    // How many numbers below this one have a slot: the index at which its own stands, or would be put.
    fn count_below(&self, number: u64) -> usize
        ensures { IsCountBelow self.now number result }
    {
        self.slots.partition_point(|slot| slot.number < number)
    }

    // Whether the slot at an index is that of a number.
    fn is_at(&self, index: usize, number: u64) -> bool
        ensures { IsTrue result ↔ IsAt self.now number index }
    {
        match self.slots.get(index) {
            Some(slot) => slot.number == number,
            None => false,
        }
    }

    // The index at which the slot of a number stands where no number between it and the last one lacks one. It may be
    // any index.
    fn guessed_index(&self, number: u64) -> usize {
        let Some(last) = self.slots.back() else {
            return 0;
        };
        let behind = last.number.saturating_sub(number).saturating_add(1);
        self.slots.len().saturating_sub(behind as usize)
    }

    // The index of a number's slot. Most that are asked for are among the last, so that few are searched for.
    fn index_of(&self, number: u64) -> Option<usize>
        ensures { MatchOption result (slot_for self.now number ≡ None) (IsAt self.now number) }
    {
        if self.is_past_all(number) {
            return None;
        }
        let guessed = self.guessed_index(number);
        if self.is_at(guessed, number) {
            return Some(guessed);
        }
        let index = self.count_below(number);
        if self.is_at(index, number) {
            Some(index)
        } else {
            None
        }
    }

    /// The row under a number, if there is one.
    pub fn row(&self, number: u64) -> Option<CommandRow>
        ensures { result ≡ row_for self.now number }
    {
        let index = self.index_of(number)?;
        match self.slots.get(index) {
            Some(slot) => slot.row,
            None => None,
        }
    }

    // Makes a slot for a number, at the index at which it belongs, unless it has one.
    fn make_slot(&mut self, number: u64, index: usize) -> Result<(), AllocError>
        requires { IsCountBelow self.old number index }
        ensures room { OnOk result (IsSome (slot_for self.new number)) }
        ensures stays { (n : ℕ) → IsSome (slot_for self.old n) → IsSome (slot_for self.new n) }
        ensures same { (n : ℕ) → row_for self.new n ≡ row_for self.old n }
    {
        if !self.is_at(index, number) {
            self.slots.insert(index, RowSlot { number, row: None })?;
        }
        Ok(())
    }

    /// Makes a slot for a number that has none.
    pub fn make_room(&mut self, number: u64) -> Result<(), AllocError>
        ensures room { OnOk result (IsSome (slot_for self.new number)) }
        ensures stays { (n : ℕ) → IsSome (slot_for self.old n) → IsSome (slot_for self.new n) }
        ensures same { (n : ℕ) → row_for self.new n ≡ row_for self.old n }
    {
        if self.is_past_all(number) {
            self.slots.push_back(RowSlot { number, row: None })?;
            return Ok(());
        }
        let index = self.count_below(number);
        self.make_slot(number, index)
    }

    /// Keeps a row under a number that has a slot.
    pub fn set_row(&mut self, number: u64, row: CommandRow)
        requires { IsSome (slot_for self.old number) }
        ensures { (n : ℕ) → slot_for self.new n ≡ (if number == n then Some (Some row) else slot_for self.old n) }
    {
        if let Some(index) = self.index_of(number) {
            self.slots[index] = RowSlot {
                number,
                row: Some(row),
            };
        }
    }

    /// Takes the slots of the numbers below this one out.
    pub fn drop_below(&mut self, number: u64)
        ensures { (n : ℕ) → slot_for self.new n ≡ (if nat_lt n number then None else slot_for self.old n) }
    {
        drop_below(&mut self.slots, number);
    }

    /// Whether any number has a row.
    pub fn has_row(&self) -> bool
        ensures { result ≡ has_row self.now }
    {
        for slot in &self.slots {
            if self.row(slot.number).is_some() {
                return true;
            }
        }
        false
    }
}

// Takes slots out at the front, up to the first of a number that isn't below this one.
fn drop_below(slots: &mut VecDeque<RowSlot>, number: u64)
    requires { AreRising slots.old.items }
    ensures rising { AreRising slots.new.items }
    ensures dropped { (n : ℕ) → slot_for slots.new.items n
        ≡ (if nat_lt n number then None else slot_for slots.old.items n) }
{
    while is_first_below(slots, number) {
        let _taken_out = slots.pop_front();
    }
}

// Whether there is a first slot, of a number below this one.
fn is_first_below(slots: &VecDeque<RowSlot>, number: u64) -> bool
    ensures { IsTrue result ↔ ((0 < length slots.now.items) × (number_at slots.now.items 0 < number)) }
{
    match slots.front() {
        Some(first) => first.number < number,
        None => false,
    }
}
