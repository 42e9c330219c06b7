//! The comparison of a database with a record.
ghost use Rattle.std.specs.Prelude.{◌≡◌, ◌∷◌, ◌++◌, List, [], ℕ, IfOk, IfSome, None, OnOk, Some, length, string_bytes};
ghost use Rattle.std.specs.Io.Buffered.{reader_remaining};
ghost use Rattle.std.specs.Io.KnownBytes.{Appends, Keeps};
ghost use Rattle.building.specs.Building.{Building as a_building};
ghost use Rattle.cli_base.specs.Base.{BeginsOn};
ghost use Rattle.cli_common.specs.Input.{bytes_of};
ghost use Rattle.deliveries.specs.Delivered.{Holds};
ghost use Rattle.deliveries.specs.Tables.{tables};
ghost use Rattle.deliveries.specs.declared.delivery.Delivery.{Delivery as a_delivery};
ghost use Rattle.desk_cli.specs.ListLines.{Collects};
ghost use Rattle.desk_cli.specs.Replay.{lines_of};
ghost use Rattle.points.specs.Beginnings.{AppendsStart};
ghost use Rattle.store.specs.Standing.{Reads};
ghost use Rattle.store.specs.Tables.{Tables};
ghost use Rattle.store_memory.specs.Memory.{standing_of};
ghost use Rattle.cli_record.specs.Differences.{AreDifferences};
ghost use Rattle.cli_record.specs.RecordRun.{AreFound, Finds, HasLeft, IsCompared, IsComparison, IsRecordChecked, IsVerdict, Lists, SaysNoMore};

use crate::comparing::compare_tables;
use crate::difference::Difference;
use crate::record_text::{differences_text, unmade_line, whole_line};
use crate::replayed::with_last;
use crate::whole_list::read_whole;
use building::Building;
use cli_base::desk_on;
use cli_common::{Input, ListInput, RunFault, Status, flush, print_text, read_building};
use deliveries::Delivery;
use desk::Desk;
use desk_cli::read_deliveries;
use std::alloc::{AllocError, Global};
use std::io::{self, BufReader, Cursor, Read, Write};
use store::{OpenFault, Store, StoreFault};
use store_memory::MemStore;

/// The building and the store of a desk, once a list of deliveries is made.
fn made_by<T: Store + Drop>(
    desk: Desk<T>,
    deliveries: &[Delivery],
) -> Result<(Building, T), StoreFault>
    ensures building { IfOk result (λ parts. parts.0 ≡ desk.building) }
    ensures made { (earlier : List a_delivery) → Holds desk.building earlier (T.standing desk.store)
        → IfOk result (λ parts. (T.standing parts.1).is_honest
        → Holds desk.building (earlier ++ deliveries.now) (T.standing parts.1)) }
{
    let mut desk = desk;
    let (_replies, fault) = desk.run(deliveries);
    match fault {
        None => Ok(desk.into_parts()),
        Some(fault) => Err(fault),
    }
}

/// Where the tables of a store differ from those of a list of deliveries, and whether they differ nowhere from those of the
/// list without its last.
#[derive(Drop)]
struct Compared {
    found: Vec<Difference>,
    lacks_last: bool,
}

/// Compares the tables of a store with those of a desk to which no more is delivered.
fn compare_desk<'a, S: Store, T: Store + Drop>(
    alloc: Global,
    desk: Desk<T>,
    store: &mut S,
) -> Result<Compared, RunFault<'a>>
    requires honest { (t : T) → (T.standing t).is_honest }
    ensures reads { OnOk result (Reads None (S.standing store.old) (S.standing store.new)) }
    ensures found { (earlier : List a_delivery) → Holds desk.building earlier (T.standing desk.store) → (S.standing store.new).is_honest
        → IfOk result (λ compared. AreFound desk.building earlier [] (S.standing store.old).content.tables
        compared.found.items compared.lacks_last) }
{
    let (building, other) = desk.into_parts();
    let mut other = other;
    let found = compare_tables(alloc, &building, store, &mut other)?;
    Ok(Compared {
        found,
        lacks_last: false,
    })
}

/// Where the tables of a store differ from those of another, once a delivery more is made there.
fn compare_made<'a, S: Store, T: Store + Drop>(
    alloc: Global,
    building: Building,
    other: T,
    last: &Delivery,
    store: &mut S,
) -> Result<Vec<Difference>, RunFault<'a>>
    requires honest { (t : T) → (T.standing t).is_honest }
    ensures reads { OnOk result (Reads None (S.standing store.old) (S.standing store.new)) }
    ensures found { (earlier : List a_delivery) → Holds building earlier (T.standing other) → (S.standing store.new).is_honest
        → IfOk result (λ found. AreDifferences building (S.standing store.old).content.tables
        (tables building (earlier ++ last.now ∷ [])) found.items) }
{
    let (building, other) = with_last(alloc, building, other, last)?;
    let mut other = other;
    let found = compare_tables(alloc, &building, store, &mut other)?;
    Ok(found)
}

/// Compares the tables of a store with those of another, and with those that one has once a delivery more is made.
fn compare_last<'a, S: Store, T: Store + Drop>(
    alloc: Global,
    building: Building,
    other: T,
    last: &Delivery,
    store: &mut S,
) -> Result<Compared, RunFault<'a>>
    requires honest { (t : T) → (T.standing t).is_honest }
    ensures reads { OnOk result (Reads None (S.standing store.old) (S.standing store.new)) }
    ensures found { (earlier before : List a_delivery) → Holds building (earlier ++ before) (T.standing other)
        → (S.standing store.new).is_honest → IfOk result (λ compared. AreFound building earlier (before ++ last.now ∷ [])
        (S.standing store.old).content.tables compared.found.items compared.lacks_last) }
{
    let mut other = other;
    let unmade = compare_tables(alloc, &building, store, &mut other)?;
    let found = compare_made(alloc, building, other, last, store)?;
    Ok(Compared {
        found,
        lacks_last: unmade.is_empty(),
    })
}

/// Compares the tables of a store with those that a list of deliveries leaves behind what a desk has.
fn compare_list<'a, S: Store, T: Store + Drop>(
    alloc: Global,
    desk: Desk<T>,
    store: &mut S,
    deliveries: &[Delivery],
) -> Result<Compared, RunFault<'a>>
    requires honest { (t : T) → (T.standing t).is_honest }
    ensures reads { OnOk result (Reads None (S.standing store.old) (S.standing store.new)) }
    ensures found { (earlier : List a_delivery) → Holds desk.building earlier (T.standing desk.store) → (S.standing store.new).is_honest
        → IfOk result (λ compared. AreFound desk.building earlier deliveries.now (S.standing store.old).content.tables
        compared.found.items compared.lacks_last) }
{
    match deliveries.split_last() {
        None => compare_desk(alloc, desk, store),
        Some((last, before)) => {
            let (building, other) = made_by(desk, before)?;
            compare_last(alloc, building, other, last, store)
        }
    }
}

/// What is said of so many deliveries: the status, and what is printed.
fn verdict(alloc: Global, count: usize, compared: &Compared) -> Result<(Status, String), AllocError>
    ensures verdict { IfOk result (λ said. IsVerdict count (string_bytes said.1)) }
    ensures compared { (building : a_building) (earlier deliveries : List a_delivery) (held : Tables) → length deliveries ≡ count
        → AreFound building earlier deliveries held compared.now.found.items compared.now.lacks_last
        → IfOk result (λ said. IsCompared building earlier deliveries held said.0 (string_bytes said.1)) }
{
    if compared.found.is_empty() {
        return Ok((Status::Done, whole_line(alloc, count)?));
    }
    if compared.lacks_last {
        return Ok((Status::Done, unmade_line(alloc, count)?));
    }
    let text = differences_text(alloc, compared.found.as_slice())?;
    Ok((Status::Fault, text))
}

/// Compares the tables of a store with those that a list of deliveries leaves behind those of a base.
fn compare_on<'a, S: Store>(
    alloc: Global,
    building: Building,
    base: Option<MemStore>,
    store: &mut S,
    deliveries: &[Delivery],
) -> Result<Compared, RunFault<'a>>
    ensures reads { OnOk result (Reads None (S.standing store.old) (S.standing store.new)) }
    ensures found { (earlier : List a_delivery) → BeginsOn standing_of building earlier base → (S.standing store.new).is_honest
        → IfOk result (λ compared. AreFound building earlier deliveries.now (S.standing store.old).content.tables
        compared.found.items compared.lacks_last) }
{
    match desk_on(alloc, building, base) {
        Ok(desk) => compare_list(alloc, desk, store, deliveries),
        Err(fault) => Err(RunFault::from(fault)),
    }
}

/// Compares the tables of a store with those that deliveries leave behind those of a base, and if they differ with those
/// without the last: the status, and what is printed.
fn compare<'a, S: Store>(
    alloc: Global,
    building: Building,
    base: Option<MemStore>,
    store: &mut S,
    deliveries: &[Delivery],
) -> Result<(Status, String), RunFault<'a>>
    ensures compared { (earlier : List a_delivery) → BeginsOn standing_of building earlier base → (S.standing store.new).is_honest
        → IfOk result (λ said. IsCompared building earlier deliveries.now (S.standing store.old).content.tables said.0
        (string_bytes said.1)) }
    ensures verdict { IfOk result (λ said. IsVerdict (length deliveries.now) (string_bytes said.1)) }
    ensures honest { OnOk result ((S.standing store.new).is_honest → (S.standing store.old).is_honest) }
{
    let compared = compare_on(alloc, building, base, store, deliveries)?;
    Ok(verdict(alloc, deliveries.len(), &compared)?)
}

/// The building, and the store that is found, once a desk of the building was opened over it.
fn opened<'a, S: Store + Drop, O>(
    alloc: Global,
    building: Building,
    database: &'a str,
    finder: O,
) -> Result<(Building, S), RunFault<'a>>
where
    O: FnOnce() -> Result<Option<S>, OpenFault>,
    requires { O.IsAlwaysCallable finder }
    ensures building { IfOk result (λ parts. parts.0 ≡ building) }
    ensures found { (tables : Tables) → Finds (O.post finder) (λ store. (S.standing store).content.tables ≡ tables)
        → IfOk result (λ parts. (S.standing parts.1).is_honest → (S.standing parts.1).content.tables ≡ tables) }
{
    let store = match finder() {
        Ok(Some(store)) => store,
        Ok(None) => return Err(RunFault::NoDatabase { path: database }),
        Err(fault) => return Err(RunFault::from(fault)),
    };
    match Desk::open(alloc, building, store) {
        Ok(desk) => Ok(desk.into_parts()),
        Err((fault, _store)) => Err(RunFault::from(fault)),
    }
}

/// The deliveries of the whole lines of a record.
fn recorded<'a, D: Read + Drop, P>(
    alloc: Global,
    building: &Building,
    list: ListInput<'a, P>,
) -> Result<Vec<Delivery>, RunFault<'a>>
where
    P: FnOnce() -> io::Result<BufReader<D>>,
    requires { P.IsAlwaysCallable list.open }
    ensures { IfOk result (λ deliveries. (bytes : List ℕ)
        → HasLeft (P.post list.entry.open) (reader_remaining D.remaining) bytes → Lists building.now bytes deliveries.items) }
{
    let path = list.path;
    let whole = read_whole(alloc, list)?;
    deliveries_in(alloc, building, path, whole)
}

/// The deliveries of lines that were read from the file of this path.
fn deliveries_in<'a>(
    alloc: Global,
    building: &Building,
    path: &'a str,
    whole: Vec<u8>,
) -> Result<Vec<Delivery>, RunFault<'a>>
    ensures { IfOk result (λ deliveries. Collects building.now (lines_of whole.items) [] deliveries.items) }
{
    match BufReader::new(alloc, Cursor::new(whole)) {
        Ok(lines) => read_deliveries(alloc, building, path, lines, None),
        Err(error) => Err(RunFault::of_read(&error, path)),
    }
}

/// What is to be printed of a comparison, the status then, and the store whose tables were compared.
#[derive(Drop)]
struct Comparison<S> {
    status: Status,
    text: String,
    store: S,
}

fn compare_over<'a, B: Read + Drop, D: Read + Drop, P, S: Store + Drop, O>(
    alloc: Global,
    file: Input<'a, B>,
    list: ListInput<'a, P>,
    base: Option<MemStore>,
    database: &'a str,
    finder: O,
) -> Result<Comparison<S>, RunFault<'a>>
where
    P: FnOnce() -> io::Result<BufReader<D>>,
    O: FnOnce() -> Result<Option<S>, OpenFault>,
    requires list { P.IsAlwaysCallable list.open }
    requires found { O.IsAlwaysCallable finder }
    ensures { IfOk result (λ compared. (file_bytes list_bytes : List ℕ)
        → bytes_of B.remaining file.entry.reader ≡ Some file_bytes
        → HasLeft (P.post list.entry.open) (reader_remaining D.remaining) list_bytes
        → IsComparison S.standing (O.post finder) base file_bytes list_bytes compared.status (string_bytes compared.text) compared.store) }
{
    let building = read_building(alloc, file)?;
    let deliveries = recorded(alloc, &building, list)?;
    let (building, store) = opened(alloc, building, database, finder)?;
    let mut store = store;
    let (status, text) = compare(alloc, building, base, &mut store, deliveries.as_slice())?;
    Ok(Comparison {
        status,
        text,
        store,
    })
}

/// Prints a text whole, or where the output fails a beginning of it.
fn print_all<'a, W: Write>(out: &mut W, text: &str) -> Result<(), RunFault<'a>>
    ensures whole { OnOk result (Appends (W.contents out.old) (W.contents out.new) text.now) }
    ensures no_more { AppendsStart (W.contents out.old) (W.contents out.new) text.now }
{
    print_text(out, text.as_bytes())?;
    flush(out)
}

/// Prints a comparison, and hands on its store if that was whole.
fn print_comparison<S: Drop, W: Write, F: Write>(
    alloc: Global,
    comparison: Comparison<S>,
    out: &mut W,
    fault: &mut F,
) -> RecordChecked<S>
    ensures whole { IfSome result.store (λ left. (left ≡ comparison.store) × (result.status ≡ comparison.status)
        × Appends (W.contents out.old) (W.contents out.new) (string_bytes comparison.text)) }
    ensures part { result.store ≡ None → result.status ≡ Status.Done → ⊥ }
    ensures quiet { result.status ≡ Status.Done → Keeps (F.contents fault.old) (F.contents fault.new) }
    ensures no_more { AppendsStart (W.contents out.old) (W.contents out.new) (string_bytes comparison.text) }
{
    let Comparison {
        status,
        text,
        store,
    } = comparison;
    match print_all(out, text.as_str()) {
        Ok(()) => RecordChecked {
            status,
            store: Some(store),
        },
        Err(end) => {
            let end = end.after(out.flush());
            end.print(alloc, fault);
            RecordChecked {
                status: end.status(),
                store: None,
            }
        }
    }
}

/// How a comparison with a record ended, and the store whose tables were compared, as it stands then, if what is said
/// of them was printed whole.
#[derive(Drop)]
pub struct RecordChecked<S> {
    pub status: Status,
    pub store: Option<S>,
}

/// Prints whether the tables of the store that is found are those that the whole lines of a record leave in the
/// building of a file, behind those of the base that it may stand on, with status 0: also where they are those without
/// the last delivery, which a stop came before. Else it prints each place where they differ as a line, with
/// `Status::Fault`: `desk check FILE DB --record PATH`.
///
/// Empty lines of the record are passed over, and so is an import whose holiday list is at fault; a last line without
/// its end was never delivered. The building is read first, then the record, and then the store is looked for and a
/// desk is opened over it; the store is only read. A base that does not suit the building is a fault. A fault is one line on `fault`, and nothing else is printed then, or
/// where the output ended the run a beginning of the text.
pub fn check_record<'a, B: Read + Drop, D: Read + Drop, P, S: Store + Drop, O, W: Write, F: Write>(
    alloc: Global,
    file: Input<'a, B>,
    list: ListInput<'a, P>,
    base: Option<MemStore>,
    database: &'a str,
    finder: O,
    out: &mut W,
    fault: &mut F,
) -> RecordChecked<S>
where
    P: FnOnce() -> io::Result<BufReader<D>>,
    O: FnOnce() -> Result<Option<S>, OpenFault>,
    requires list { P.IsAlwaysCallable list.open }
    requires found { O.IsAlwaysCallable finder }
    ensures checked { IfSome result.store (λ left. (file_bytes list_bytes : List ℕ)
        → bytes_of B.remaining file.entry.reader ≡ Some file_bytes
        → HasLeft (P.post list.entry.open) (reader_remaining D.remaining) list_bytes
        → IsRecordChecked S.standing (O.post finder) base file_bytes list_bytes result.status left (W.contents out.old)
        (W.contents out.new)) }
    ensures unchecked { result.store ≡ None → result.status ≡ Status.Done → ⊥ }
    ensures quiet { result.status ≡ Status.Done → Keeps (F.contents fault.old) (F.contents fault.new) }
    ensures no_more { (file_bytes list_bytes : List ℕ)
        → bytes_of B.remaining file.entry.reader ≡ Some file_bytes
        → HasLeft (P.post list.entry.open) (reader_remaining D.remaining) list_bytes
        → SaysNoMore S.standing (O.post finder) base file_bytes list_bytes (W.contents out.old) (W.contents out.new) }
{
    match compare_over(alloc, file, list, base, database, finder) {
        Ok(comparison) => print_comparison(alloc, comparison, out, fault),
        Err(end) => {
            let end = end.after(out.flush());
            end.print(alloc, fault);
            RecordChecked {
                status: end.status(),
                store: None,
            }
        }
    }
}
