//! One delivery to a store, answered.
ghost use Rattle.std.specs.Prelude.{◌≡◌, ℕ, List, Option, None, Some, IfErr, IfOk, IsSome, OnOk, string_bytes};
ghost use Rattle.std.specs.Bool.{IsTrue};
ghost use Rattle.std.specs.Io.Buffered.{reader_remaining};
ghost use Rattle.std.specs.Io.KnownBytes.{Appends, Keeps};
ghost use Rattle.cli_common.specs.Input.{bytes_of};
ghost use Rattle.delivery_json.specs.ReplyText.{reply_line};
ghost use Rattle.deliveries.specs.declared.delivery.Delivery.{Delivery as a_delivery};
ghost use Rattle.deliveries.specs.Delivered.{Holds};
ghost use Rattle.desk_record.specs.Recorded.{InStep, IsBehind, listed};
ghost use Rattle.cli_store.specs.Answered.{Answers, Asks, IsAnswered, Opens};
ghost use Rattle.cli_record.specs.Beside.{OpensBeside, ReadsBeside};
ghost use Rattle.cli_record.specs.declared.difference.Difference.{Difference as a_difference};
ghost use Rattle.cli_record.specs.Replayed.{MayHave};
ghost use Rattle.cli_store.specs.Guarded.{IsGuarded};
ghost use Rattle.cli_store.specs.Otherwise.{SaysOtherwise, Tells};
ghost use Rattle.cli_store.specs.Recorded.{Adds, IsRecorded, Records};

use crate::clock_delivery::{ClockDelivery, read_asked};
use crate::ended::Stopped;
use crate::keeper::{Opening, Recording, resume_at};
use crate::otherwise::tell_otherwise;
use building::Building;
use cli_common::{Input, ListInput, RunFault, print_whole, read_building};
use cli_record::{BesideFault, Database, Unopened, open_beside};
use deliveries::{Delivery, Reply};
use delivery_json::ReplyText;
use desk::Desk;
use desk_record::{NoRecord, Recorder, Undelivered};
use sqlite_disk::Disk;
use std::alloc::{AllocError, Global};
use std::io::{self, BufReader, Read, Write};
use store::{OpenFault, Store};
use store_memory::MemStore;

/// What was answered, the store as it stands then, and the disk of the record, if one is kept.
#[derive(Drop)]
pub(crate) struct Answered<S, D> {
    pub reply: Reply,
    pub store: S,
    pub disk: Option<D>,
}

/// What was answered, and the disk of the record, if one is kept.
#[derive(Drop)]
struct Replied<D> {
    reply: Reply,
    disk: Option<D>,
}

/// A desk over the store that is opened.
pub(crate) fn open_desk<'a, S: Store + Drop, O>(
    alloc: Global,
    building: Building,
    opener: O,
) -> Result<Desk<S>, Stopped<'a, S>>
where
    O: FnOnce() -> Result<S, OpenFault>,
    requires { O.IsAlwaysCallable opener }
    ensures building { IfOk result (λ desk. desk.building ≡ building) }
    ensures holds { (earlier : List a_delivery) → Opens (O.post opener) (λ store. Holds building earlier (S.standing store))
        → IfOk result (λ it. (S.standing it.store).is_honest → Holds building earlier (S.standing it.store)) }
    ensures behind { (earlier deliveries : List a_delivery)
        → Opens (O.post opener) (λ store. IsBehind building earlier deliveries (S.standing store))
        → IfOk result (λ it. (S.standing it.store).is_honest → IsBehind building earlier deliveries (S.standing it.store)) }
{
    match opener() {
        Ok(store) => match Desk::open(alloc, building, store) {
            Ok(desk) => Ok(desk),
            Err((fault, store)) => Err(Stopped {
                fault: BesideFault::from(fault),
                store: Some(store),
            }),
        },
        Err(fault) => Err(Stopped::from(RunFault::from(fault))),
    }
}

/// A desk over the store that is opened, once it is seen to be the record's own. What the building makes otherwise is told.
fn open_own<'a, R: Read + Drop, P, S: Store + Drop, O, F: Write>(
    alloc: Global,
    building: Building,
    list: ListInput<'a, P>,
    base: Option<MemStore>,
    database: Database<'a, O>,
    fault: &mut F,
) -> Result<Desk<S>, Unopened<'a, S>>
where
    P: FnOnce() -> io::Result<Option<BufReader<R>>>,
    O: FnOnce() -> Result<S, OpenFault>,
    requires { P.IsAlwaysCallable list.open × O.IsAlwaysCallable database.opener }
    ensures building { IfOk result (λ desk. desk.building ≡ building) }
    ensures opened { IfOk result (λ desk. (otherwise : Option a_difference)
        × Tells otherwise (F.contents fault.old) (F.contents fault.new)
        × OpensBeside S.standing (O.post database.entry.opener) database.entry.is_missing building base
        (MayHave (P.post list.entry.open) (reader_remaining R.remaining)) otherwise (S.standing desk.store)) }
    ensures refused { IfErr result (λ end. (left : S) → end.store ≡ Some left
        → ReadsBeside S.standing (O.post database.entry.opener) database.entry.is_missing building base
        (MayHave (P.post list.entry.open) (reader_remaining R.remaining)) (S.standing left)) }
{
    match open_beside(alloc, building, list, base, database) {
        Ok(beside) => {
            tell_otherwise(alloc, beside.otherwise, fault);
            Ok(beside.desk)
        }
        Err(end) => Err(end),
    }
}

/// A desk over the store that is opened; with a record, once the store is seen to be its own.
pub(crate) fn open_kept<'a, R: Read + Drop, P, S: Store + Drop, O, F: Write>(
    alloc: Global,
    building: Building,
    database: Database<'a, O>,
    path: Option<&'a str>,
    base: Option<MemStore>,
    reader: P,
    fault: &mut F,
) -> Result<Desk<S>, Stopped<'a, S>>
where
    P: FnOnce() -> io::Result<Option<BufReader<R>>>,
    P: Drop,
    O: FnOnce() -> Result<S, OpenFault>,
    requires { P.IsAlwaysCallable reader × O.IsAlwaysCallable database.opener }
    ensures building { IfOk result (λ desk. desk.building ≡ building) }
    ensures holds { (earlier : List a_delivery) → Opens (O.post database.entry.opener) (λ store. Holds building earlier (S.standing store))
        → IfOk result (λ it. (S.standing it.store).is_honest → Holds building earlier (S.standing it.store)) }
    ensures behind { (earlier deliveries : List a_delivery)
        → Opens (O.post database.entry.opener) (λ store. IsBehind building earlier deliveries (S.standing store))
        → IfOk result (λ it. (S.standing it.store).is_honest → IsBehind building earlier deliveries (S.standing it.store)) }
    ensures opened { IsSome path.entry → IfOk result (λ it. (otherwise : Option a_difference)
        × Tells otherwise (F.contents fault.old) (F.contents fault.new)
        × OpensBeside S.standing (O.post database.entry.opener) database.entry.is_missing building base
        (MayHave (P.post reader) (reader_remaining R.remaining)) otherwise (S.standing it.store)) }
    ensures refused { IsSome path.entry → IfErr result (λ end. (left : S) → end.store ≡ Some left
        → ReadsBeside S.standing (O.post database.entry.opener) database.entry.is_missing building base
        (MayHave (P.post reader) (reader_remaining R.remaining)) (S.standing left)) }
    ensures quiet { path.entry ≡ None → Keeps (F.contents fault.old) (F.contents fault.new) }
{
    let Some(path) = path else {
        return open_desk(alloc, building, database.opener);
    };
    let list = ListInput { path, open: reader };
    Ok(open_own(alloc, building, list, base, database, fault)?)
}

/// Prints a reply as a line.
pub(crate) fn print_reply<'a, W: Write>(
    alloc: Global,
    reply: Reply,
    out: &mut W,
) -> Result<(), RunFault<'a>>
    ensures { OnOk result (Appends (W.contents out.old) (W.contents out.new) (reply_line reply)) }
{
    let line = reply_line(alloc, reply)?;
    print_whole(out, line.as_str())
}

/// The text of a reply with its line end (LF).
fn reply_line(alloc: Global, reply: Reply) -> Result<String, AllocError>
    ensures { IfOk result (λ line. string_bytes line ≡ reply_line reply) }
{
    format!(in alloc; "{}\n", ReplyText(reply))
}

/// Delivers, once that is written down, and prints the reply as a line. The desk is lent, so that no exit here drops
/// one, which is dear to prove.
fn deliver_kept<'a, S: Store + Drop, R: Recorder, W: Write>(
    alloc: Global,
    desk: &mut Desk<S>,
    recorder: &mut R,
    path: &'a str,
    delivery: &Delivery,
    out: &mut W,
) -> Result<Reply, RunFault<'a>>
    ensures answers { OnOk result ((earlier : List a_delivery) → (S.standing desk.new.store).is_honest
        → Holds desk.old.building earlier (S.standing desk.old.store)
        → Answers desk.old.building earlier delivery.now (S.standing desk.new.store) (W.contents out.old) (W.contents out.new)) }
    ensures recorded { OnOk result ((earlier : List a_delivery) → (S.standing desk.new.store).is_honest
        → (R.standing recorder.new).is_honest → InStep desk.old.building earlier (R.standing recorder.old) (S.standing desk.old.store)
        → Adds desk.old.building earlier delivery.now (R.standing recorder.old) (R.standing recorder.new) (S.standing desk.new.store)
        (W.contents out.old) (W.contents out.new)) }
    ensures honest { OnOk result ((S.standing desk.new.store).is_honest → (S.standing desk.old.store).is_honest) }
    ensures honest_record { OnOk result ((R.standing recorder.new).is_honest → (R.standing recorder.old).is_honest) }
{
    let reply = match desk_record::deliver(alloc, desk, recorder, delivery) {
        Ok(reply) => reply,
        Err(Undelivered::NoMemory) => return Err(RunFault::NoMemory),
        Err(Undelivered::NotRecorded) => return Err(RunFault::CannotWrite { path }),
        Err(Undelivered::Store(fault)) => return Err(RunFault::from(fault)),
    };
    print_reply(alloc, reply, out)?;
    Ok(reply)
}

/// Delivers to a desk, after what the record of a path has, and prints the reply as a line.
fn deliver_recorded<'a, S: Store + Drop, D: Disk + Drop, Q, W: Write>(
    alloc: Global,
    desk: &mut Desk<S>,
    path: &'a str,
    opener: Q,
    delivery: &Delivery,
    out: &mut W,
) -> Result<(Reply, D), RunFault<'a>>
where
    Q: FnOnce() -> Result<D, OpenFault>,
    requires { Q.IsAlwaysCallable opener }
    ensures recorded { IfOk result (λ answered. (earlier deliveries : List a_delivery)
        → Opens (Q.post opener) (λ disk. listed desk.old.building (D.Disk.seen disk) ≡ deliveries)
        → IsBehind desk.old.building earlier deliveries (S.standing desk.old.store)
        → (S.standing desk.new.store).is_honest → IsTrue (D.Disk.is_clean answered.1)
        → Records desk.old.building earlier deliveries delivery.now (S.standing desk.new.store) (D.Disk.seen answered.1) (D.Disk.may_leave answered.1)
        (W.contents out.old) (W.contents out.new)) }
    ensures honest { OnOk result ((S.standing desk.new.store).is_honest → (S.standing desk.old.store).is_honest) }
{
    let mut kept = resume_at(alloc, desk, path, opener)?;
    let reply = deliver_kept(alloc, desk, &mut kept, path, delivery, out)?;
    Ok((reply, kept.into_disk()))
}

/// Delivers to a desk, after what its record has, if it has one, and prints the reply as a line.
fn deliver<'a, S: Store + Drop, D: Disk + Drop, Q, W: Write>(
    alloc: Global,
    desk: &mut Desk<S>,
    path: Option<&'a str>,
    opener: Q,
    delivery: &Delivery,
    out: &mut W,
) -> Result<Replied<D>, RunFault<'a>>
where
    Q: FnOnce() -> Result<D, OpenFault>,
    Q: Drop,
    requires { Q.IsAlwaysCallable opener }
    ensures answers { path.entry ≡ None → OnOk result ((earlier : List a_delivery) → (S.standing desk.new.store).is_honest
        → Holds desk.old.building earlier (S.standing desk.old.store)
        → Answers desk.old.building earlier delivery.now (S.standing desk.new.store) (W.contents out.old) (W.contents out.new)) }
    ensures recorded { IsSome path.entry → IfOk result (λ answered. (disk : D) × (answered.disk ≡ Some disk)
        × ((earlier deliveries : List a_delivery)
        → Opens (Q.post opener) (λ opened. listed desk.old.building (D.Disk.seen opened) ≡ deliveries)
        → IsBehind desk.old.building earlier deliveries (S.standing desk.old.store)
        → (S.standing desk.new.store).is_honest → IsTrue (D.Disk.is_clean disk)
        → Records desk.old.building earlier deliveries delivery.now (S.standing desk.new.store) (D.Disk.seen disk) (D.Disk.may_leave disk)
        (W.contents out.old) (W.contents out.new))) }
    ensures honest { OnOk result ((S.standing desk.new.store).is_honest → (S.standing desk.old.store).is_honest) }
{
    let Some(path) = path else {
        let reply = deliver_kept(alloc, desk, &mut NoRecord, "", delivery, out)?;
        return Ok(Replied { reply, disk: None });
    };
    let (reply, disk) = deliver_recorded(alloc, desk, path, opener, delivery, out)?;
    Ok(Replied {
        reply,
        disk: Some(disk),
    })
}

/// Delivers what is asked to the store that is opened, over the building of a file, and prints the reply as a line.
pub(crate) fn answer<
    'a,
    B: Read + Drop,
    L: Read + Drop,
    R: Read + Drop,
    S: Store + Drop,
    D: Disk + Drop,
    O,
    P,
    Q,
    W: Write,
    F: Write,
>(
    alloc: Global,
    file: Input<'a, B>,
    asked: ClockDelivery<'a, L>,
    opening: Opening<'a, O, P, Q>,
    out: &mut W,
    fault: &mut F,
) -> Result<Answered<S, D>, Stopped<'a, S>>
where
    O: FnOnce() -> Result<S, OpenFault>,
    P: FnOnce() -> io::Result<Option<BufReader<R>>>,
    P: Drop,
    Q: FnOnce() -> Result<D, OpenFault>,
    Q: Drop,
    requires { O.IsAlwaysCallable opening.database.opener × P.IsAlwaysCallable opening.recording.reader
        × Q.IsAlwaysCallable opening.recording.opener }
    ensures answered { opening.entry.recording.path ≡ None → IfOk result (λ answered. (file_bytes : List ℕ)
        → bytes_of B.remaining file.entry.reader ≡ Some file_bytes
        → IsAnswered S.standing (O.post opening.entry.database.opener) (Asks L.remaining asked.entry) file_bytes answered.store
        (W.contents out.old) (W.contents out.new)) }
    ensures recorded { IsSome opening.entry.recording.path → IfOk result (λ answered. (file_bytes : List ℕ)
        → bytes_of B.remaining file.entry.reader ≡ Some file_bytes → (disk : D) × (answered.disk ≡ Some disk)
        × IsRecorded S.standing D.Disk.seen D.Disk.may_leave D.Disk.is_clean (O.post opening.entry.database.opener)
        (Q.post opening.entry.recording.opener) (Asks L.remaining asked.entry) file_bytes answered.store disk
        (W.contents out.old) (W.contents out.new)) }
    ensures guarded { IsSome opening.entry.recording.path → (file_bytes list_bytes : List ℕ)
        → bytes_of B.remaining file.entry.reader ≡ Some file_bytes
        → MayHave (P.post opening.entry.recording.reader) (reader_remaining R.remaining) list_bytes
        → IfOk result (λ answered. IsGuarded S.standing (O.post opening.entry.database.opener) opening.entry.database.is_missing file_bytes
        opening.entry.recording.base list_bytes answered.store) }
    ensures stopped { IsSome opening.entry.recording.path → (file_bytes list_bytes : List ℕ)
        → bytes_of B.remaining file.entry.reader ≡ Some file_bytes
        → MayHave (P.post opening.entry.recording.reader) (reader_remaining R.remaining) list_bytes
        → IfErr result (λ end. (left : S) → end.store ≡ Some left
        → IsGuarded S.standing (O.post opening.entry.database.opener) opening.entry.database.is_missing file_bytes
        opening.entry.recording.base list_bytes left) }
    ensures quiet { opening.entry.recording.path ≡ None → Keeps (F.contents fault.old) (F.contents fault.new) }
    ensures told { IsSome opening.entry.recording.path → (file_bytes list_bytes : List ℕ)
        → bytes_of B.remaining file.entry.reader ≡ Some file_bytes
        → MayHave (P.post opening.entry.recording.reader) (reader_remaining R.remaining) list_bytes
        → IfOk result (λ answered. SaysOtherwise S.standing (O.post opening.entry.database.opener) file_bytes
        opening.entry.recording.base list_bytes (F.contents fault.old) (F.contents fault.new)) }
{
    let Opening {
        database,
        recording,
    } = opening;
    let Recording {
        path,
        base,
        reader,
        opener,
    } = recording;
    let building = read_building(alloc, file)?;
    let delivery = read_asked(alloc, &building, asked)?;
    let mut desk = open_kept(alloc, building, database, path, base, reader, fault)?;
    let answered = deliver(alloc, &mut desk, path, opener, &delivery, out);
    let store = desk.into_store();
    match answered {
        Ok(Replied { reply, disk }) => Ok(Answered { reply, store, disk }),
        Err(fault) => Err(Stopped {
            fault: BesideFault::from(fault),
            store: Some(store),
        }),
    }
}
