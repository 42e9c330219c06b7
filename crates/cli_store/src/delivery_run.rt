//! A delivery, from the file of the building to the line of its reply.
ghost use Rattle.std.specs.Prelude.{◌≡◌, List, ℕ, None, Some, IsSome};
ghost use Rattle.std.specs.Io.Buffered.{reader_remaining};
ghost use Rattle.std.specs.Io.KnownBytes.{Keeps};
ghost use Rattle.cli_common.specs.Input.{bytes_of};
ghost use Rattle.cli_store.specs.Answered.{Asks, IsAnswered};
ghost use Rattle.cli_record.specs.Replayed.{MayHave};
ghost use Rattle.cli_store.specs.Guarded.{IsGuarded};
ghost use Rattle.cli_store.specs.Otherwise.{SaysOtherwise};
ghost use Rattle.cli_store.specs.Recorded.{IsRecorded};

use crate::answering::{Answered, answer};
use crate::clock_delivery::ClockDelivery;
use crate::ended::{Delivered, Ended};
use crate::keeper::Opening;
use cli_common::{Input, Status};
use deliveries::Reply;
use sqlite_disk::Disk;
use std::alloc::Global;
use std::io::{self, BufReader, Read, Write};
use store::{OpenFault, Store};

/// Delivers what is asked to the store that is opened, over the building of a file, and prints the reply as a line:
/// `desk tick` and `desk import`. The store is opened after the building is read, and the list of an import; if a record
/// is kept, it is read through before the store is opened, and nothing is delivered to a store that is not its own.
///
/// Where the building makes other values of the record than the store has, the first is printed to `fault` as a line, and
/// the run goes on. A moment that can't be ticked is answered `bad_moment`, and the status says so. A fault is printed to
/// `fault` as one line, as one of the list is, and then nothing is delivered; what the store answered before the output
/// failed stands.
pub fn deliver<
    'a,
    B: Read + Drop,
    L: Read + Drop,
    R: Read + Drop,
    S: Store + Drop,
    D: Disk + Drop,
    O,
    P,
    Q,
    W: Write,
    F: Write,
>(
    alloc: Global,
    file: Input<'a, B>,
    asked: ClockDelivery<'a, L>,
    opening: Opening<'a, O, P, Q>,
    out: &mut W,
    fault: &mut F,
) -> Delivered<S, D>
where
    O: FnOnce() -> Result<S, OpenFault>,
    P: FnOnce() -> io::Result<Option<BufReader<R>>>,
    P: Drop,
    Q: FnOnce() -> Result<D, OpenFault>,
    Q: Drop,
    requires { O.IsAlwaysCallable opening.database.opener × P.IsAlwaysCallable opening.recording.reader
        × Q.IsAlwaysCallable opening.recording.opener }
    ensures done { result.ended.status ≡ Status.Done → opening.entry.recording.path ≡ None → (file_bytes : List ℕ)
        → bytes_of B.remaining file.entry.reader ≡ Some file_bytes
        → (left : S) × (result.ended.store ≡ Some left)
        × IsAnswered S.standing (O.post opening.entry.database.opener) (Asks L.remaining asked.entry) file_bytes left
        (W.contents out.old) (W.contents out.new) }
    ensures recorded { result.ended.status ≡ Status.Done → IsSome opening.entry.recording.path → (file_bytes : List ℕ)
        → bytes_of B.remaining file.entry.reader ≡ Some file_bytes
        → (left : S) × (disk : D) × (result.ended.store ≡ Some left) × (result.disk ≡ Some disk)
        × IsRecorded S.standing D.Disk.seen D.Disk.may_leave D.Disk.is_clean (O.post opening.entry.database.opener)
        (Q.post opening.entry.recording.opener) (Asks L.remaining asked.entry) file_bytes left disk
        (W.contents out.old) (W.contents out.new) }
    ensures guarded { IsSome opening.entry.recording.path → (file_bytes list_bytes : List ℕ)
        → bytes_of B.remaining file.entry.reader ≡ Some file_bytes
        → MayHave (P.post opening.entry.recording.reader) (reader_remaining R.remaining) list_bytes
        → (left : S) → result.ended.store ≡ Some left
        → IsGuarded S.standing (O.post opening.entry.database.opener) opening.entry.database.is_missing file_bytes
        opening.entry.recording.base list_bytes left }
    ensures quiet { result.ended.status ≡ Status.Done → opening.entry.recording.path ≡ None
        → Keeps (F.contents fault.old) (F.contents fault.new) }
    ensures told { result.ended.status ≡ Status.Done → IsSome opening.entry.recording.path → (file_bytes list_bytes : List ℕ)
        → bytes_of B.remaining file.entry.reader ≡ Some file_bytes
        → MayHave (P.post opening.entry.recording.reader) (reader_remaining R.remaining) list_bytes
        → SaysOtherwise S.standing (O.post opening.entry.database.opener) file_bytes opening.entry.recording.base list_bytes
        (F.contents fault.old) (F.contents fault.new) }
{
    match answer(alloc, file, asked, opening, out, fault) {
        Ok(Answered { reply, store, disk }) => Delivered {
            ended: Ended {
                status: status_of(reply),
                store: Some(store),
            },
            disk,
        },
        Err(end) => Delivered {
            ended: end.print(alloc, fault),
            disk: None,
        },
    }
}

/// The status of a delivery that was answered.
fn status_of(reply: Reply) -> Status {
    match reply {
        Reply::BadMoment => Status::Fault,
        _ => Status::Done,
    }
}
