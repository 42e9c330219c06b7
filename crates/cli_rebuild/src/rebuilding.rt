//! A database that is made from a record.
ghost use Rattle.std.specs.Prelude.{◌≡◌, IfOk, IfSome, List, None, OnOk, ℕ, Some, string_bytes};
ghost use Rattle.std.specs.Io.Buffered.{reader_remaining};
ghost use Rattle.std.specs.Io.KnownBytes.{Keeps};
ghost use Rattle.cli_base.specs.Base.{BeginsOn};
ghost use Rattle.cli_common.specs.Input.{bytes_of};
ghost use Rattle.cli_record.specs.Replayed.{HoldsRecord, LeavesTorn, MayHave};
ghost use Rattle.cli_rebuild.specs.Rebuilt.{IsRebuilt, rebuilt_text};
ghost use Rattle.deliveries.specs.Delivered.{Holds};
ghost use Rattle.deliveries.specs.declared.delivery.Delivery.{Delivery as a_delivery};
ghost use Rattle.desk.specs.Opening.{Suits};
ghost use Rattle.desk_adopt.specs.Surveyed.{IsSurvey};
ghost use Rattle.desk_adopt.specs.declared.finding.Finding.{Finding as a_finding};
ghost use Rattle.desk_adopt.specs.declared.holdings.Holdings.{Holdings as a_holdings};
ghost use Rattle.store.specs.Standing.{sound};
ghost use Rattle.store.specs.Tables.{no_tables};
ghost use Rattle.store_memory.specs.Memory.{standing_of};

use crate::rebuilt_text::rebuilt_text;
use building::Building;
use cli_check::{Adopted, AdoptionFault, MakeFault, TakenAlong};
use cli_common::{Input, ListInput, RunFault, Status, read_building};
use cli_record::{WholeReplay, replay_whole};
use desk::Desk;
use desk_adopt::survey_tables;
use std::alloc::Global;
use std::io::{self, BufReader, Read, Write};
use store::{Store, StoreFault};
use store_copy::{CopyFault, copy_tables};
use store_memory::MemStore;

/// The building and the store, over which a desk opens.
fn seen_to_suit<S: Store + Drop>(
    alloc: Global,
    building: Building,
    store: S,
) -> Result<(Building, S), StoreFault>
    ensures building { IfOk result (λ parts. parts.0 ≡ building) }
    ensures same { IfOk result (λ parts. (S.standing parts.1).is_honest → (S.standing parts.1).content ≡ (S.standing store).content) }
    ensures suits { IfOk result (λ parts. (S.standing parts.1).is_honest → Suits building (S.standing store).content.tables) }
{
    match Desk::open(alloc, building, store) {
        Ok(desk) => Ok(desk.into_parts()),
        Err((fault, _store)) => Err(fault),
    }
}

/// Why the tables were not copied into the database of this path.
fn copy_fault<'a>(fault: CopyFault, made: &'a str) -> AdoptionFault<'a> {
    match fault {
        CopyFault::Read(fault) => AdoptionFault::from(fault),
        CopyFault::OutOfRange => AdoptionFault::from(StoreFault::BadRow),
        CopyFault::Written(fault) => AdoptionFault::of_writing(fault, made),
    }
}

/// Copies the tables of deliveries to a building into an empty store, the database of the path `made`, and tells what it
/// holds then. So many bytes stand behind the lines that told the deliveries.
fn copy_over<'a, S: Store, T: Store>(
    alloc: Global,
    building: &Building,
    torn: usize,
    from: &mut S,
    into: &mut T,
    made: &'a str,
) -> Result<String, AdoptionFault<'a>>
    ensures copied { OnOk result ((deliveries : List a_delivery) → (S.standing from.new).is_honest → (T.standing into.new).is_honest
        → (T.standing into.old).content ≡ sound no_tables → Holds building.now deliveries (S.standing from.old)
        → Holds building.now deliveries (T.standing into.new)) }
    ensures told { IfOk result (λ text. (T.standing into.new).is_honest → (findings : List a_finding) × (holdings : a_holdings)
        × IsSurvey building.now (T.standing into.new).content.tables findings holdings × (string_bytes text ≡ rebuilt_text torn holdings)) }
{
    match copy_tables(alloc, from, into) {
        Ok(()) => {}
        Err(fault) => return Err(copy_fault(fault, made)),
    }
    let survey = match survey_tables(alloc, into, building) {
        Ok(survey) => survey,
        Err(fault) => return Err(AdoptionFault::of_writing(fault, made)),
    };
    Ok(rebuilt_text(alloc, torn, &survey.holdings)?)
}

/// What the whole lines of a record leave in memory behind its base, where a desk opens over it.
fn replayed<'a, D: Read + Drop, P>(
    alloc: Global,
    building: Building,
    list: ListInput<'a, P>,
    base: Option<MemStore>,
) -> Result<WholeReplay<MemStore>, RunFault<'a>>
where
    P: FnOnce() -> io::Result<Option<BufReader<D>>>,
    requires { P.IsAlwaysCallable list.open }
    ensures building { IfOk result (λ it. it.building ≡ building) }
    ensures holds { IfOk result (λ it. (earlier : List a_delivery) (bytes : List ℕ) → BeginsOn standing_of building earlier base
        → MayHave (P.post list.entry.open) (reader_remaining D.remaining) bytes
        → HoldsRecord building earlier bytes (standing_of it.store)) }
    ensures suits { IfOk result (λ it. Suits building (standing_of it.store).content.tables) }
    ensures torn { IfOk result (λ it. (bytes : List ℕ)
        → MayHave (P.post list.entry.open) (reader_remaining D.remaining) bytes → LeavesTorn bytes it.torn) }
{
    let WholeReplay {
        building,
        store,
        torn,
    } = replay_whole(alloc, building, list, base)?;
    let (building, store) = seen_to_suit(alloc, building, store)?;
    Ok(WholeReplay {
        building,
        store,
        torn,
    })
}

/// Makes in an empty store, the database of the path `made`, the tables of the deliveries that the whole lines of a record
/// tell, behind those of the base that it may stand on: `desk rebuild FILE RECORD DB`. Empty lines are passed over, and so is an import whose holiday list is at fault;
/// what stands behind the last line end was never delivered. Nothing is printed but a fault, as one line on `fault`:
/// where the store was made by then, it is let go with what it has, nothing or all.
pub fn rebuild_database<'a, B: Read + Drop, D: Read + Drop, P, T: Store + Drop, N, F: Write>(
    alloc: Global,
    file: Input<'a, B>,
    list: ListInput<'a, P>,
    base: Option<MemStore>,
    made: &'a str,
    maker: N,
    fault: &mut F,
) -> Adopted<MemStore, T>
where
    P: FnOnce() -> io::Result<Option<BufReader<D>>>,
    N: FnOnce() -> Result<T, MakeFault>,
    requires list { P.IsAlwaysCallable list.open }
    requires makes { N.IsAlwaysCallable maker }
    ensures rebuilt { IfSome result.taken (λ it. (file_bytes list_bytes : List ℕ)
        → bytes_of B.remaining file.entry.reader ≡ Some file_bytes
        → MayHave (P.post list.entry.open) (reader_remaining D.remaining) list_bytes
        → IsRebuilt T.standing (N.post maker) base file_bytes list_bytes it.into (string_bytes it.text)) }
    ensures done { result.status ≡ Status.Done → result.taken ≡ None → ⊥ }
    ensures quiet { result.status ≡ Status.Done → Keeps (F.contents fault.old) (F.contents fault.new) }
{
    match rebuild_over(alloc, file, list, base, made, maker) {
        Ok(taken) => Adopted {
            status: Status::Done,
            taken: Some(taken),
        },
        Err(end) => {
            end.print(alloc, fault);
            Adopted {
                status: end.status(),
                taken: None,
            }
        }
    }
}

fn rebuild_over<'a, B: Read + Drop, D: Read + Drop, P, T: Store + Drop, N>(
    alloc: Global,
    file: Input<'a, B>,
    list: ListInput<'a, P>,
    base: Option<MemStore>,
    made: &'a str,
    maker: N,
) -> Result<TakenAlong<MemStore, T>, AdoptionFault<'a>>
where
    P: FnOnce() -> io::Result<Option<BufReader<D>>>,
    N: FnOnce() -> Result<T, MakeFault>,
    requires list { P.IsAlwaysCallable list.open }
    requires makes { N.IsAlwaysCallable maker }
    ensures { IfOk result (λ it. (file_bytes list_bytes : List ℕ)
        → bytes_of B.remaining file.entry.reader ≡ Some file_bytes
        → MayHave (P.post list.entry.open) (reader_remaining D.remaining) list_bytes
        → IsRebuilt T.standing (N.post maker) base file_bytes list_bytes it.into (string_bytes it.text)) }
{
    let building = read_building(alloc, file)?;
    let mut into = match maker() {
        Ok(store) => store,
        Err(fault) => return Err(AdoptionFault::of_making(fault, made)),
    };
    let WholeReplay {
        building,
        store,
        torn,
    } = replayed(alloc, building, list, base)?;
    let mut from = store;
    let text = copy_over(alloc, &building, torn, &mut from, &mut into, made)?;
    Ok(TakenAlong { from, into, text })
}
