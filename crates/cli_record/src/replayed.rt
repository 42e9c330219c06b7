//! What the whole lines of a record leave in memory.
ghost use Rattle.std.specs.Prelude.{◌≡◌, ◌∷◌, ◌++◌, List, [], ℕ, IfOk, None, OnOk, Some, is_none};
ghost use Rattle.std.specs.Io.Buffered.{reader_remaining};
ghost use Rattle.cli_base.specs.Base.{BeginsOn};
ghost use Rattle.deliveries.specs.Delivered.{Holds};
ghost use Rattle.deliveries.specs.Tables.{tables};
ghost use Rattle.deliveries.specs.declared.delivery.Delivery.{Delivery as a_delivery};
ghost use Rattle.store.specs.Standing.{IsOpen, Reads};
ghost use Rattle.store_memory.specs.Memory.{standing_of};
ghost use Rattle.cli_record.specs.Belonging.{IsMatched, TellsFirst, TellsOtherwise};
ghost use Rattle.cli_record.specs.Compared.{held_fault};
ghost use Rattle.std.specs.Option.{option_to_list};
ghost use Rattle.desk_cli.specs.ListLines.{tells};
ghost use Rattle.cli_record.specs.Replayed.{HoldsRecord, IsFound, IsReplayed, LeavesTorn, Makes, MayHave};

use crate::belonging::{First, first_found, of_both};
use crate::comparing::CompareFault;
use crate::record_lines::read_whole_line;
use building::Building;
use cli_base::desk_on;
use cli_common::{ListInput, RunFault};
use deliveries::Delivery;
use desk::Desk;
use desk_cli::delivery_in;
use json::Scratch;
use std::alloc::Global;
use std::io::{self, BufReader, Read};
use store::{Store, StoreFault};
use store_memory::MemStore;

/// The building and the store of a desk that a record was replayed to, but for the record's last delivery, which is held
/// back: a stop may have come before it was made.
#[derive(Drop)]
pub(crate) struct Replayed<T> {
    pub building: Building,
    pub store: T,
    pub last: Option<Delivery>,
    /// How many bytes stand after the last line end.
    pub torn: usize,
}

/// What is left of a record once its whole lines were replayed: the last delivery, which is held back, and how many bytes
/// stand after the last line end.
#[derive(Drop)]
struct Left {
    last: Option<Delivery>,
    torn: usize,
}

/// The building of a record, and how a store is beside the record.
#[derive(Drop)]
pub(crate) struct Matched {
    pub building: Building,
    pub found: First,
}

/// Makes a delivery, if there is one.
fn make<S: Store + Drop>(desk: &mut Desk<S>, delivery: &Option<Delivery>) -> Result<(), StoreFault>
    ensures made { OnOk result ((earlier : List a_delivery) → (S.standing desk.new.store).is_honest
        → Holds desk.old.building earlier (S.standing desk.old.store)
        → Holds desk.old.building (earlier ++ option_to_list delivery.now) (S.standing desk.new.store)) }
    ensures honest { (S.standing desk.new.store).is_honest → (S.standing desk.old.store).is_honest }
    ensures building { desk.new.building ≡ desk.old.building }
{
    match delivery {
        None => Ok(()),
        Some(delivery) => {
            let _reply = desk.deliver(delivery)?;
            Ok(())
        }
    }
}

/// Makes the delivery that was held back, and holds back the next one, if there is one.
fn hold_back<S: Store + Drop>(
    desk: &mut Desk<S>,
    last: &mut Option<Delivery>,
    next: Option<Delivery>,
) -> Result<(), StoreFault>
    ensures makes { OnOk result ((earlier : List a_delivery) (lines : List (List ℕ)) (line : List ℕ)
        → (S.standing desk.new.store).is_honest → tells desk.old.building line next
        → Makes desk.old.building earlier lines last.old (S.standing desk.old.store)
        → Makes desk.old.building earlier (lines ++ line ∷ []) last.new (S.standing desk.new.store)) }
    ensures honest { (S.standing desk.new.store).is_honest → (S.standing desk.old.store).is_honest }
    ensures building { desk.new.building ≡ desk.old.building }
{
    if next.is_none() {
        return Ok(());
    }
    make(desk, last)?;
    *last = next;
    Ok(())
}

/// Replays the whole lines that the reader of the record of this path has left, but for their last delivery.
fn replay_lines<'a, D: Read + Drop, S: Store + Drop>(
    alloc: Global,
    path: &'a str,
    mut reader: BufReader<D>,
    desk: &mut Desk<S>,
) -> Result<Left, RunFault<'a>>
    ensures replayed { IfOk result (λ left. (earlier : List a_delivery) (bytes : List ℕ)
        → reader_remaining D.remaining reader ≡ Some bytes
        → (S.standing desk.new.store).is_honest → Holds desk.old.building earlier (S.standing desk.old.store)
        → IsReplayed desk.old.building earlier bytes left.last (S.standing desk.new.store)) }
    ensures torn { IfOk result (λ left. (bytes : List ℕ) → reader_remaining D.remaining reader ≡ Some bytes
        → LeavesTorn bytes left.torn) }
    ensures building { desk.new.building ≡ desk.old.building }
{
    let mut scratch = Scratch::new(alloc);
    let mut line = Vec::new(alloc);
    let mut last = None;
    for number in 1..u64::MAX {
        let is_whole = read_whole_line(path, &mut reader, &mut line)?;
        if !is_whole {
            let torn = line.as_slice().len();
            return Ok(Left { last, torn });
        }
        let next = delivery_in(
            alloc,
            &mut scratch,
            desk.building(),
            number,
            line.as_slice(),
        )?;
        hold_back(desk, &mut last, next)?;
    }
    Err(RunFault::CannotRead { path })
}

/// Replays the record that was found at this path, if there is one.
fn replay_found<'a, D: Read + Drop, S: Store + Drop>(
    alloc: Global,
    path: &'a str,
    found: Option<BufReader<D>>,
    desk: &mut Desk<S>,
) -> Result<Left, RunFault<'a>>
    ensures replayed { IfOk result (λ left. (earlier : List a_delivery) (bytes : List ℕ)
        → IsFound (reader_remaining D.remaining) found bytes
        → (S.standing desk.new.store).is_honest → Holds desk.old.building earlier (S.standing desk.old.store)
        → IsReplayed desk.old.building earlier bytes left.last (S.standing desk.new.store)) }
    ensures torn { IfOk result (λ left. (bytes : List ℕ) → IsFound (reader_remaining D.remaining) found bytes
        → LeavesTorn bytes left.torn) }
    ensures building { desk.new.building ≡ desk.old.building }
{
    match found {
        Some(reader) => replay_lines(alloc, path, reader, desk),
        None => Ok(Left {
            last: None,
            torn: 0,
        }),
    }
}

/// Replays a record to a desk: the deliveries of its whole lines, but for the last one. Empty lines are passed over, and
/// so is an import whose holiday list is at fault; what stands after the last line end was never delivered. A file that is
/// not there is an empty record. One that can't be read, a line that is no delivery, and lack of memory are the faults.
pub(crate) fn replay_record<'a, D: Read + Drop, P, T: Store + Drop>(
    alloc: Global,
    desk: Desk<T>,
    list: ListInput<'a, P>,
) -> Result<Replayed<T>, RunFault<'a>>
where
    P: FnOnce() -> io::Result<Option<BufReader<D>>>,
    requires { P.IsAlwaysCallable list.open }
    ensures replayed { IfOk result (λ replayed. (earlier : List a_delivery) (bytes : List ℕ)
        → Holds desk.building earlier (T.standing desk.store)
        → MayHave (P.post list.entry.open) (reader_remaining D.remaining) bytes → (T.standing replayed.store).is_honest
        → IsReplayed desk.building earlier bytes replayed.last (T.standing replayed.store)) }
    ensures torn { IfOk result (λ replayed. (bytes : List ℕ)
        → MayHave (P.post list.entry.open) (reader_remaining D.remaining) bytes → LeavesTorn bytes replayed.torn) }
    ensures building { IfOk result (λ replayed. replayed.building ≡ desk.building) }
{
    let ListInput { path, open } = list;
    let mut desk = desk;
    match open() {
        Ok(found) => {
            let Left { last, torn } = replay_found(alloc, path, found, &mut desk)?;
            let (building, store) = desk.into_parts();
            Ok(Replayed {
                building,
                store,
                last,
                torn,
            })
        }
        Err(error) => Err(RunFault::of_read(&error, path)),
    }
}

/// The building and the store, once a delivery more is made.
pub(crate) fn with_last<T: Store + Drop>(
    alloc: Global,
    building: Building,
    store: T,
    last: &Delivery,
) -> Result<(Building, T), CompareFault>
    ensures building { IfOk result (λ parts. parts.0 ≡ building) }
    ensures made { (earlier : List a_delivery) → Holds building earlier (T.standing store)
        → IfOk result (λ parts. (T.standing parts.1).is_honest → Holds building (earlier ++ last.now ∷ []) (T.standing parts.1)) }
    ensures recorded { held_fault result ≡ None }
{
    match Desk::open(alloc, building, store) {
        Ok(desk) => {
            let mut desk = desk;
            match desk.deliver(last) {
                Ok(_reply) => Ok(desk.into_parts()),
                Err(fault) => Err(CompareFault::Recorded(fault)),
            }
        }
        Err((fault, _store)) => Err(CompareFault::Recorded(fault)),
    }
}

/// What is found of a store beside that of a record, once the record's last delivery is made.
fn found_with_last<S: Store, T: Store + Drop>(
    alloc: Global,
    building: Building,
    other: T,
    last: &Delivery,
    store: &mut S,
) -> Result<Matched, CompareFault>
    requires open { IsOpen (S.standing store.old) }
    requires honest { (t : T) → (T.standing t).is_honest }
    ensures building { IfOk result (λ matched. matched.building ≡ building) }
    ensures reads { Reads (held_fault result) (S.standing store.old) (S.standing store.new) }
    ensures found { (earlier : List a_delivery) → Holds building earlier (T.standing other) → (S.standing store.new).is_honest
        → IfOk result (λ matched. TellsFirst building (S.standing store.old).content.tables
        (tables building (earlier ++ last.now ∷ [])) matched.found.difference matched.found.otherwise) }
{
    match with_last(alloc, building, other, last) {
        Ok((building, other)) => {
            let mut other = other;
            match first_found(alloc, &building, store, &mut other) {
                Ok(found) => Ok(Matched { building, found }),
                Err(fault) => Err(fault),
            }
        }
        Err(fault) => Err(fault),
    }
}

/// The building and the store, once the delivery that was held back is made, if there is one.
fn with_held<'a, T: Store + Drop>(
    alloc: Global,
    building: Building,
    store: T,
    held: &Option<Delivery>,
) -> Result<(Building, T), RunFault<'a>>
    ensures building { IfOk result (λ parts. parts.0 ≡ building) }
    ensures made { (earlier : List a_delivery) → Holds building earlier (T.standing store)
        → IfOk result (λ parts. (T.standing parts.1).is_honest
        → Holds building (earlier ++ option_to_list held.now) (T.standing parts.1)) }
{
    let Some(last) = held else {
        return Ok((building, store));
    };
    match with_last(alloc, building, store, last) {
        Ok(parts) => Ok(parts),
        Err(fault) => Err(RunFault::from(fault)),
    }
}

/// A building, and a store that has what a record leaves in it.
#[derive(Drop)]
pub struct WholeReplay<T> {
    pub building: Building,
    pub store: T,
    /// How many bytes stand after the last line end: of a line that was never delivered.
    pub torn: usize,
}

/// Delivers the whole lines of a record to a desk over a store that is always honest.
fn replay_over<'a, D: Read + Drop, P, T: Store + Drop>(
    alloc: Global,
    desk: Desk<T>,
    list: ListInput<'a, P>,
) -> Result<WholeReplay<T>, RunFault<'a>>
where
    P: FnOnce() -> io::Result<Option<BufReader<D>>>,
    requires open { P.IsAlwaysCallable list.open }
    requires honest { (t : T) → (T.standing t).is_honest }
    ensures holds { IfOk result (λ replayed. (earlier : List a_delivery) (bytes : List ℕ)
        → Holds desk.building earlier (T.standing desk.store)
        → MayHave (P.post list.entry.open) (reader_remaining D.remaining) bytes
        → HoldsRecord desk.building earlier bytes (T.standing replayed.store)) }
    ensures torn { IfOk result (λ replayed. (bytes : List ℕ)
        → MayHave (P.post list.entry.open) (reader_remaining D.remaining) bytes → LeavesTorn bytes replayed.torn) }
    ensures building { IfOk result (λ replayed. replayed.building ≡ desk.building) }
{
    let Replayed {
        building,
        store,
        last,
        torn,
    } = replay_record(alloc, desk, list)?;
    let (building, store) = with_held(alloc, building, store, &last)?;
    Ok(WholeReplay {
        building,
        store,
        torn,
    })
}

/// Delivers the whole lines of a record to a desk over its base, or over empty tables where it stands on none. Empty
/// lines are passed over, and so is an import whose holiday list is at fault; what stands after the last line end was
/// never delivered. A file that is not there is an empty record. One that can't be read, a line that is no delivery, a
/// base that does not suit the building, and lack of memory are the faults.
pub fn replay_whole<'a, D: Read + Drop, P>(
    alloc: Global,
    building: Building,
    list: ListInput<'a, P>,
    base: Option<MemStore>,
) -> Result<WholeReplay<MemStore>, RunFault<'a>>
where
    P: FnOnce() -> io::Result<Option<BufReader<D>>>,
    requires { P.IsAlwaysCallable list.open }
    ensures holds { IfOk result (λ replayed. (earlier : List a_delivery) (bytes : List ℕ)
        → BeginsOn standing_of building earlier base
        → MayHave (P.post list.entry.open) (reader_remaining D.remaining) bytes
        → HoldsRecord building earlier bytes (standing_of replayed.store)) }
    ensures torn { IfOk result (λ replayed. (bytes : List ℕ)
        → MayHave (P.post list.entry.open) (reader_remaining D.remaining) bytes → LeavesTorn bytes replayed.torn) }
    ensures building { IfOk result (λ replayed. replayed.building ≡ building) }
{
    match desk_on(alloc, building, base) {
        Ok(desk) => replay_over(alloc, desk, list),
        Err(fault) => Err(RunFault::from(fault)),
    }
}

impl<T: Store + Drop> Replayed<T> {
    /// Whether the record has no delivery.
    pub fn is_empty(&self) -> bool
        ensures { result ≡ is_none self.now.last }
    {
        self.last.is_none()
    }

    /// Looks whether a store is the record's own. It is, where what no rule of the building decides is what the
    /// record's deliveries leave, or all but the last of them, which is still to be made: each panel's next number, what
    /// it sent under the numbers that it may still repeat or use, and the last tick. Else the first difference from all
    /// of them is told. Where it is, the first place of a point that has another value than these deliveries leave is
    /// told: the building's file may have been edited since. An import changes nothing of what is looked at, so that it
    /// may have been made or not: no place is told where each has the value of one of the two. The store is only read.
    pub fn matched<S: Store>(self, alloc: Global, store: &mut S) -> Result<Matched, CompareFault>
        requires honest { (t : T) → (T.standing t).is_honest }
        ensures building { IfOk result (λ matched. matched.building ≡ self.building) }
        ensures reads { Reads (held_fault result) (S.standing store.old) (S.standing store.new) }
        ensures matched { (earlier : List a_delivery) (bytes : List ℕ)
            → IsReplayed self.building earlier bytes self.last (T.standing self.store) → (S.standing store.new).is_honest
            → IfOk result (λ matched. IsMatched self.building earlier bytes (S.standing store.old).content.tables
            matched.found.difference) }
        ensures otherwise { (earlier : List a_delivery) (bytes : List ℕ)
            → IsReplayed self.building earlier bytes self.last (T.standing self.store) → (S.standing store.new).is_honest
            → IfOk result (λ matched. matched.found.difference ≡ None
            → TellsOtherwise self.building earlier bytes (S.standing store.old).content.tables matched.found.otherwise) }
    {
        let Replayed {
            building,
            store: other,
            last,
            torn: _torn,
        } = self;
        let mut other = other;
        let before = match first_found(alloc, &building, store, &mut other) {
            Ok(found) => found,
            Err(fault) => return Err(fault),
        };
        if !before.has_any() {
            return Ok(Matched {
                building,
                found: before,
            });
        }
        match &last {
            Some(last) => match found_with_last(alloc, building, other, last, store) {
                Ok(all) => Ok(Matched {
                    building: all.building,
                    found: of_both(before, all.found),
                }),
                Err(fault) => Err(fault),
            },
            None => Ok(Matched {
                building,
                found: before,
            }),
        }
    }
}
