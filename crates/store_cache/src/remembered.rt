//! A store that answers from memory.
ghost use Rattle.std.specs.Prelude.{◌≡◌, ◌≤◌, ℕ, IfErr, IfOk, None, Some};
ghost use Rattle.std.specs.Result.{result_err};
ghost use Rattle.points.specs.Run.{IsRun, Rows};
ghost use Rattle.store.specs.Standing.{Reads};
ghost use Rattle.store.specs.declared.fault.StoreFault.TheVariants.{BadRow};
ghost use Rattle.store_cache.specs.Remembering.{shut_after};

use crate::free_numbers::FreeNumbers;
use crate::memory::Memory;
use dates::Entry;
use points::{CommandRow, Listing, Name, NumberedRow, PriorityArray};
use std::alloc::Global;
use std::marker::Model;
use store::{Change, Names, Store, StoreFault};

/// How many numbers past those that are asked for are looked at too, where these have no row.
const AHEAD: u64 = 64;

/// A store over another one. What the store below has answered once it answers from memory, but for the rows of
/// commands and the names; a commit goes down, and once it has succeeded what is remembered follows it. To a caller it
/// is the store below.
#[derive(Drop)]
pub struct Remembered<S: Store + Drop> {
    alloc: Global,
    below: S,
    memory: Memory,
    is_shut: bool,
}

impl<S: Store + Drop> Model for Remembered<S> {
    ghost use Rattle.store_cache.specs.Remembering.{Remembers};

    ghost Value = { S };

    ghost coded = { S.code };

    ghost view = { λ store. store.below };

    ghost invariant = { λ store. Remembers (S.standing store.below) store.memory store.is_shut };
}

/// Whether a store is shut after a call.
fn is_shut_after<T>(was_shut: bool, answer: &Result<T, StoreFault>) -> bool
    ensures { result ≡ shut_after (result_err answer.now) was_shut }
{
    match answer {
        Err(StoreFault::Failed) => true,
        _ => was_shut,
    }
}

/// The numbers before the first row of a run, from one on, or all up to and with another where it has none.
fn free_before(run: &[NumberedRow], from: u64, upto: u64) -> FreeNumbers
    requires { from ≤ upto }
    ensures { (rows : Rows) → IsRun rows from upto run.now
        → (n : ℕ) → result.first ≤ n → n ≤ result.last → (from ≤ n) × (n ≤ upto) × (rows n ≡ None) }
{
    match run.first() {
        Some(row) => FreeNumbers::between(from, row.number.min(upto)),
        None => FreeNumbers {
            first: from,
            last: upto,
        },
    }
}

impl<S: Store + Drop> Remembered<S> {
    /// A store over one that is open, of which nothing is remembered but the last tick. The store below is only read,
    /// and is handed back with a fault.
    pub fn open(alloc: Global, below: S) -> Result<Remembered<S>, (StoreFault, S)>
        ensures opened { IfOk result (λ store. Reads None (S.standing below) (S.standing store)) }
        ensures refused { IfErr result (λ reported. Reads (Some reported.0) (S.standing below) (S.standing reported.1)) }
    {
        let mut below = below;
        match below.last_tick() {
            Ok(_) => Ok(Remembered {
                alloc,
                below,
                memory: Memory::new(alloc),
                is_shut: false,
            }),
            Err(fault) => Err((fault, below)),
        }
    }

    /// Reads which of a panel's numbers from one on, up to another and some past it, have no row, so that the panel's next
    /// commands need not ask. A fault that shuts nothing is none of this read, whose answer may be left out.
    fn look_ahead(&mut self, panel: &Name, from: u64, upto: u64) -> Result<(), StoreFault>
        requires { from ≤ upto }
        ensures reads { Reads (result_err result) (S.standing self.old) (S.standing self.new) }
        ensures fault { IfErr result (λ fault. fault ≡ BadRow → ⊥) }
    {
        let far = upto.saturating_add(AHEAD);
        let answer = self.below.commands_run(panel, from, far);
        self.is_shut = is_shut_after(self.is_shut, &answer);
        match answer {
            Ok(rows) => {
                // Where memory is refused it is not known.
                let _kept = self.memory.keep_free(panel, free_before(&rows, from, far));
                Ok(())
            }
            Err(StoreFault::NoMemory | StoreFault::BadRow) => Ok(()),
            Err(fault) => Err(fault),
        }
    }

    /// The store below.
    pub fn into_below(self) -> S
        ensures { result ≡ self }
    {
        self.below
    }
}

impl<S: Store + Drop> Store for Remembered<S> {
    ghost standing = { S.standing };

    fn panel_next(&mut self, panel: &Name) -> Result<u64, StoreFault> {
        if self.is_shut {
            return Err(StoreFault::Shut);
        }
        if let Some(next) = self.memory.next(panel) {
            return Ok(next);
        }
        let answer = self.below.panel_next(panel);
        self.is_shut = is_shut_after(self.is_shut, &answer);
        let next = answer?;
        self.memory.keep_next(panel, next)?;
        Ok(next)
    }

    fn command(&mut self, panel: &Name, number: u64) -> Result<Option<CommandRow>, StoreFault> {
        let answer = self.below.command(panel, number);
        self.is_shut = is_shut_after(self.is_shut, &answer);
        answer
    }

    fn commands_run(
        &mut self,
        panel: &Name,
        from: u64,
        upto: u64,
    ) -> Result<Vec<NumberedRow>, StoreFault> {
        if self.is_shut {
            return Err(StoreFault::Shut);
        }
        if self.memory.are_free(panel, from, upto) {
            return Ok(Vec::new(self.alloc));
        }
        let answer = self.below.commands_run(panel, from, upto);
        self.is_shut = is_shut_after(self.is_shut, &answer);
        let rows = answer?;
        if rows.is_empty() {
            self.look_ahead(panel, from, upto)?;
        }
        Ok(rows)
    }

    fn array(&mut self, point: &Name) -> Result<PriorityArray, StoreFault> {
        if self.is_shut {
            return Err(StoreFault::Shut);
        }
        if let Some(array) = self.memory.array(point) {
            return Ok(array.clone()?);
        }
        let answer = self.below.array(point);
        self.is_shut = is_shut_after(self.is_shut, &answer);
        let array = answer?;
        self.memory.keep_array(point, array.clone()?)?;
        Ok(array)
    }

    fn shown(&mut self, schedule: &Name) -> Result<Option<Option<i64>>, StoreFault> {
        if self.is_shut {
            return Err(StoreFault::Shut);
        }
        if let Some(shown) = self.memory.shown(schedule) {
            return Ok(shown);
        }
        let answer = self.below.shown(schedule);
        self.is_shut = is_shut_after(self.is_shut, &answer);
        let shown = answer?;
        self.memory.keep_shown(schedule, shown)?;
        Ok(shown)
    }

    fn last_tick(&mut self) -> Result<Option<i64>, StoreFault> {
        if self.is_shut {
            return Err(StoreFault::Shut);
        }
        if let Some(last_tick) = self.memory.last_tick() {
            return Ok(last_tick);
        }
        let answer = self.below.last_tick();
        self.is_shut = is_shut_after(self.is_shut, &answer);
        let last_tick = answer?;
        self.memory.keep_last_tick(last_tick);
        Ok(last_tick)
    }

    fn entries(&mut self, calendar: &Name) -> Result<Vec<Entry>, StoreFault> {
        if self.is_shut {
            return Err(StoreFault::Shut);
        }
        if let Some(entries) = self.memory.entries(calendar) {
            return Ok(Vec::from_slice(self.alloc, entries.as_slice())?);
        }
        let answer = self.below.entries(calendar);
        self.is_shut = is_shut_after(self.is_shut, &answer);
        let entries = answer?;
        let kept = Vec::from_slice(self.alloc, entries.as_slice())?;
        self.memory.keep_entries(calendar, Listing::from_vec(kept))?;
        Ok(entries)
    }

    fn names(&mut self) -> Result<Names, StoreFault> {
        let answer = self.below.names();
        self.is_shut = is_shut_after(self.is_shut, &answer);
        answer
    }

    fn commit(&mut self, change: &Change) -> Result<(), StoreFault> {
        if self.is_shut {
            return Err(StoreFault::Shut);
        }
        let answer = self.below.commit(change);
        self.is_shut = is_shut_after(self.is_shut, &answer);
        answer?;
        self.memory.put(change);
        Ok(())
    }

    fn failures(&self) -> u64 {
        self.below.failures()
    }
}
