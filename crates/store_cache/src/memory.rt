//! What was read of a store's tables.
ghost use Rattle.std.specs.Prelude.{◌≡◌, Bool, false, IfSome, IsTrue, ℕ, ℤ, Option, option_map};
ghost use Rattle.points.specs.PriorityArray.{Places};
ghost use Rattle.store.specs.Asked.{Asked, IsBrokenRow};
ghost use Rattle.store.specs.Asked.Asked.{ArrayOf, EntriesOf, LastTick, NextOf, ShownBy};
ghost use Rattle.store.specs.Change.{CanStand, IsPlace, with_change, with_each, with_imported, with_last_tick, with_next, with_place, with_row, with_shown};
ghost use Rattle.std.specs.HashMap.{get};
ghost use Rattle.std.specs.List.{All};
ghost use Rattle.std.specs.Str.{bytes_eq};
ghost use Rattle.store.specs.Listed.{AreEntries};
ghost use Rattle.store.specs.Tables.{Tables};
ghost use Rattle.points.specs.Texts.{Text};
ghost use Rattle.points.specs.Run.{Rows};
ghost use Rattle.store_cache.specs.Free.{AreFree, AreFreeIn};
ghost use Rattle.store_cache.specs.Known.{Has, Knows};
ghost use Rattle.store_cache.specs.Recalled.{AreImported, Recalls};

use crate::free_numbers::FreeNumbers;
use dates::Entry;
use points::{Listing, Name, PriorityArray};
use std::alloc::{AllocError, Global};
use std::collections::HashMap;
use store::{Change, ImportedEntry, KeptRow, NextNumber, PlaceValue, ShownValue};

/// What was read of the tables, by the names for which it was asked. The rows of commands are not kept, but it is known
/// of some numbers of a panel that they have none.
#[derive(Drop)]
pub(crate) struct Memory {
    nexts: HashMap<Name, u64>,
    free: HashMap<Name, FreeNumbers>,
    arrays: HashMap<Name, PriorityArray>,
    shown: HashMap<Name, Option<Option<i64>>>,
    entries: HashMap<Name, Listing<Entry>>,
    /// The last tick, if it was read; and of that the moment, if there was one.
    last_tick: Option<Option<i64>>,
}

/// Carries next numbers over that are known.
fn put_nexts(known: &mut HashMap<Name, u64>, items: &[NextNumber])
    ensures { (table : Text → ℕ) (cannot_stand : Text → Bool) → Knows (get bytes_eq known.old) (Has table) cannot_stand
        → Knows (get bytes_eq known.new) (Has (with_each with_next items.now table)) cannot_stand }
{
    for item in items {
        put_next(known, item);
    }
}

fn put_next(known: &mut HashMap<Name, u64>, item: &NextNumber)
    ensures { (table : Text → ℕ) (cannot_stand : Text → Bool) → Knows (get bytes_eq known.old) (Has table) cannot_stand
        → Knows (get bytes_eq known.new) (Has (with_next item.now table)) cannot_stand }
{
    if let Some(next) = known.get_mut(&item.panel) {
        *next = item.next;
    }
}

/// Takes the numbers of new rows out of those that are known to have none.
fn put_rows(known: &mut HashMap<Name, FreeNumbers>, items: &[KeptRow])
    ensures { (rows : Text → Rows) (cannot_stand : Asked → Bool) → Knows (get bytes_eq known.old) (AreFreeIn rows cannot_stand) (λ panel. false)
        → Knows (get bytes_eq known.new) (AreFreeIn (with_each with_row items.now rows) cannot_stand) (λ panel. false) }
{
    for item in items {
        put_row(known, item);
    }
}

fn put_row(known: &mut HashMap<Name, FreeNumbers>, item: &KeptRow)
    ensures { (rows : Text → Rows) (cannot_stand : Asked → Bool) → Knows (get bytes_eq known.old) (AreFreeIn rows cannot_stand) (λ panel. false)
        → Knows (get bytes_eq known.new) (AreFreeIn (with_row item.now rows) cannot_stand) (λ panel. false) }
{
    if let Some(free) = known.get_mut(&item.panel) {
        *free = free.without(item.number);
    }
}

/// Carries values over to the places that are known.
fn put_places(known: &mut HashMap<Name, PriorityArray>, items: &[PlaceValue])
    requires { All IsPlace items.now }
    ensures { (table : Text → Places) (cannot_stand : Text → Bool) → Knows (get bytes_eq known.old) (Has table) cannot_stand
        → Knows (get bytes_eq known.new) (Has (with_each with_place items.now table)) cannot_stand }
{
    for item in items {
        put_place(known, item);
    }
}

fn put_place(known: &mut HashMap<Name, PriorityArray>, item: &PlaceValue)
    requires { IsPlace item.now }
    ensures { (table : Text → Places) (cannot_stand : Text → Bool) → Knows (get bytes_eq known.old) (Has table) cannot_stand
        → Knows (get bytes_eq known.new) (Has (with_place item.now table)) cannot_stand }
{
    if let Some(array) = known.get_mut(&item.point) {
        array.set(item.priority, item.value);
    }
}

/// Carries over what schedules show, where it is known.
fn put_all_shown(known: &mut HashMap<Name, Option<Option<i64>>>, items: &[ShownValue])
    ensures { (table : Text → Option (Option ℤ)) (cannot_stand : Text → Bool) → Knows (get bytes_eq known.old) (Has table) cannot_stand
        → Knows (get bytes_eq known.new) (Has (with_each with_shown items.now table)) cannot_stand }
{
    for item in items {
        put_shown(known, item);
    }
}

fn put_shown(known: &mut HashMap<Name, Option<Option<i64>>>, item: &ShownValue)
    ensures { (table : Text → Option (Option ℤ)) (cannot_stand : Text → Bool) → Knows (get bytes_eq known.old) (Has table) cannot_stand
        → Knows (get bytes_eq known.new) (Has (with_shown item.now table)) cannot_stand }
{
    if let Some(shown) = known.get_mut(&item.schedule) {
        *shown = item.shown;
    }
}

/// Forgets the entries of the calendars into which something is imported.
fn forget_imported(known: &mut HashMap<Name, Listing<Entry>>, items: &[ImportedEntry])
    ensures { (table : Text → Text → Bool) (cannot_stand : Text → Bool) → Knows (get bytes_eq known.old) (AreImported table) cannot_stand
        → Knows (get bytes_eq known.new) (AreImported (with_each with_imported items.now table)) cannot_stand }
{
    for item in items {
        forget(known, item);
    }
}

fn forget(known: &mut HashMap<Name, Listing<Entry>>, item: &ImportedEntry)
    ensures { (table : Text → Text → Bool) (cannot_stand : Text → Bool) → Knows (get bytes_eq known.old) (AreImported table) cannot_stand
        → Knows (get bytes_eq known.new) (AreImported (with_imported item.now table)) cannot_stand }
{
    known.remove(&item.calendar);
}

/// The moment of the last tick after a change, if the earlier one is known.
fn last_after(known: Option<Option<i64>>, changed: Option<i64>) -> Option<Option<i64>>
    ensures { result ≡ option_map (with_last_tick changed) known }
{
    match (known, changed) {
        (Some(_), Some(moment)) => Some(Some(moment)),
        _ => known,
    }
}

impl Memory {
    /// Nothing is known.
    pub(crate) fn new(alloc: Global) -> Self
        ensures { (tables : Tables) (cannot_stand : Asked → Bool) → Recalls result tables cannot_stand }
    {
        Memory {
            nexts: HashMap::new(alloc),
            free: HashMap::new(alloc),
            arrays: HashMap::new(alloc),
            shown: HashMap::new(alloc),
            entries: HashMap::new(alloc),
            last_tick: None,
        }
    }

    /// The next number of a panel, if it is known.
    pub(crate) fn next(&self, panel: &Name) -> Option<u64>
        ensures { (tables : Tables) (cannot_stand : Asked → Bool) → Recalls self.now tables cannot_stand
            → IfSome result (λ next. (tables.next panel.now ≡ next) × (cannot_stand (NextOf panel.now) ≡ false)) }
    {
        self.nexts.get(panel).copied()
    }

    /// Keeps the next number of a panel.
    pub(crate) fn keep_next(&mut self, panel: &Name, next: u64) -> Result<(), AllocError>
        ensures { (tables : Tables) (cannot_stand : Asked → Bool) → Recalls self.old tables cannot_stand
            → tables.next panel.now ≡ next → cannot_stand (NextOf panel.now) ≡ false → Recalls self.new tables cannot_stand }
    {
        self.nexts.insert(*panel, next)?;
        Ok(())
    }

    /// Whether it is known that no row of a panel stands from a number on up to and with another.
    pub(crate) fn are_free(&self, panel: &Name, first: u64, last: u64) -> bool
        ensures { (tables : Tables) (cannot_stand : Asked → Bool) → Recalls self.now tables cannot_stand → IsTrue result
            → AreFree (tables.row panel.now) (IsBrokenRow cannot_stand panel.now) first last }
    {
        match self.free.get(panel) {
            Some(free) => free.has_all(first, last),
            None => false,
        }
    }

    /// Keeps that no row of a panel stands at these numbers.
    pub(crate) fn keep_free(&mut self, panel: &Name, free: FreeNumbers) -> Result<(), AllocError>
        ensures { (tables : Tables) (cannot_stand : Asked → Bool) → Recalls self.old tables cannot_stand
            → AreFree (tables.row panel.now) (IsBrokenRow cannot_stand panel.now) free.first free.last
            → Recalls self.new tables cannot_stand }
    {
        self.free.insert(*panel, free)?;
        Ok(())
    }

    /// The priority array of a point, if it is known.
    pub(crate) fn array(&self, point: &Name) -> Option<&PriorityArray>
        ensures { (tables : Tables) (cannot_stand : Asked → Bool) → Recalls self.now tables cannot_stand
            → IfSome result (λ array. (tables.places point.now ≡ array.now) × (cannot_stand (ArrayOf point.now) ≡ false)) }
    {
        self.arrays.get(point)
    }

    /// Keeps the priority array of a point.
    pub(crate) fn keep_array(
        &mut self,
        point: &Name,
        array: PriorityArray,
    ) -> Result<(), AllocError>
        ensures { (tables : Tables) (cannot_stand : Asked → Bool) → Recalls self.old tables cannot_stand
            → tables.places point.now ≡ array → cannot_stand (ArrayOf point.now) ≡ false → Recalls self.new tables cannot_stand }
    {
        self.arrays.insert(*point, array)?;
        Ok(())
    }

    /// What a schedule shows, if it is known.
    pub(crate) fn shown(&self, schedule: &Name) -> Option<Option<Option<i64>>>
        ensures { (tables : Tables) (cannot_stand : Asked → Bool) → Recalls self.now tables cannot_stand
            → IfSome result (λ shown. (tables.shown schedule.now ≡ shown) × (cannot_stand (ShownBy schedule.now) ≡ false)) }
    {
        self.shown.get(schedule).copied()
    }

    /// Keeps what a schedule shows.
    pub(crate) fn keep_shown(
        &mut self,
        schedule: &Name,
        shown: Option<Option<i64>>,
    ) -> Result<(), AllocError>
        ensures { (tables : Tables) (cannot_stand : Asked → Bool) → Recalls self.old tables cannot_stand
            → tables.shown schedule.now ≡ shown → cannot_stand (ShownBy schedule.now) ≡ false → Recalls self.new tables cannot_stand }
    {
        self.shown.insert(*schedule, shown)?;
        Ok(())
    }

    /// The entries that are imported into a calendar, if they are known.
    pub(crate) fn entries(&self, calendar: &Name) -> Option<&Listing<Entry>>
        ensures { (tables : Tables) (cannot_stand : Asked → Bool) → Recalls self.now tables cannot_stand
            → IfSome result (λ entries. AreEntries tables calendar.now entries.now × (cannot_stand (EntriesOf calendar.now) ≡ false)) }
    {
        self.entries.get(calendar)
    }

    /// Keeps the entries that are imported into a calendar.
    pub(crate) fn keep_entries(
        &mut self,
        calendar: &Name,
        entries: Listing<Entry>,
    ) -> Result<(), AllocError>
        ensures { (tables : Tables) (cannot_stand : Asked → Bool) → Recalls self.old tables cannot_stand
            → AreEntries tables calendar.now entries → cannot_stand (EntriesOf calendar.now) ≡ false
            → Recalls self.new tables cannot_stand }
    {
        self.entries.insert(*calendar, entries)?;
        Ok(())
    }

    /// The moment of the last tick, if it is known whether there was one.
    pub(crate) fn last_tick(&self) -> Option<Option<i64>>
        ensures { (tables : Tables) (cannot_stand : Asked → Bool) → Recalls self.now tables cannot_stand
            → IfSome result (λ last. (tables.last_tick ≡ last) × (cannot_stand LastTick ≡ false)) }
    {
        self.last_tick
    }

    /// Keeps the moment of the last tick.
    pub(crate) fn keep_last_tick(&mut self, last_tick: Option<i64>)
        ensures { (tables : Tables) (cannot_stand : Asked → Bool) → Recalls self.old tables cannot_stand
            → tables.last_tick ≡ last_tick → cannot_stand LastTick ≡ false → Recalls self.new tables cannot_stand }
    {
        self.last_tick = Some(last_tick);
    }

    /// Carries a change over. It takes no memory.
    pub(crate) fn put(&mut self, change: &Change)
        requires { CanStand change.now }
        ensures { (tables : Tables) (cannot_stand : Asked → Bool) → Recalls self.old tables cannot_stand
            → Recalls self.new (with_change change.now tables) cannot_stand }
    {
        put_nexts(&mut self.nexts, &change.nexts);
        put_rows(&mut self.free, &change.rows);
        put_places(&mut self.arrays, &change.places);
        put_all_shown(&mut self.shown, &change.shown);
        forget_imported(&mut self.entries, &change.imported);
        self.last_tick = last_after(self.last_tick, change.last_tick);
    }
}
