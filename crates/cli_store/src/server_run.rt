//! A run of the server, from the file of the building on.

ghost use Rattle.std.specs.Prelude.{◌≡◌, ℕ, List, None, Some, IfErr, IfOk, IsSome, OnOk, string_bytes};
ghost use Rattle.std.specs.Io.Buffered.{reader_remaining};
ghost use Rattle.std.specs.Io.KnownBytes.{Appends, Keeps};
ghost use Rattle.cli_common.specs.Input.{bytes_of};
ghost use Rattle.cli_record.specs.Replayed.{MayHave};
ghost use Rattle.cli_store.specs.Guarded.{IsGuarded};
ghost use Rattle.cli_store.specs.Listening.{listening_line};
ghost use Rattle.cli_store.specs.Otherwise.{SaysOtherwise};

use crate::answering::open_kept;
use crate::ended::{Ended, Stopped};
use crate::keeper::{Keeper, Opening, Recording, take_up};
use cli_common::{Input, RunFault, Status, print_whole, read_building};
use cli_record::BesideFault;
use cli_serve::{Connections, EVENTS};
use desk::Desk;
use desk_record::Recorder;
use mio::Events;
use sqlite_disk::Disk;
use std::alloc::{AllocError, Global};
use std::io::{self, BufReader, ErrorKind, Read, Write};
use std::net::TcpListener;
use store::{OpenFault, Store};

/// What a server is asked to do.
#[derive(Clone, Copy)]
pub struct Serving<'a> {
    /// The address to listen on, `HOST:PORT`, as it was given.
    pub address: &'a str,
    /// After how many connections it ends.
    pub requests: u64,
    /// Whether a tick of the machine's clock comes before each request.
    pub clock: bool,
}

/// Serves the desk of the building of a file over the store that is opened: `desk serve`. The store is opened after the
/// building is read; if a record is kept, it is read through before, and a store that is not its own is not served; where
/// the building makes other values of it than the store has, the first is printed to `fault` as a line. Then the address
/// is listened on, which is printed as a line, and then connections are taken. A record that can't be written any more
/// ends the run.
///
/// A fault is printed to `fault` as one line. What the store answered stands, and it is handed back.
pub fn serve<
    'a,
    B: Read + Drop,
    R: Read + Drop,
    S: Store + Drop,
    D: Disk + Drop,
    O,
    P,
    Q,
    W: Write,
    F: Write,
>(
    rt: &HostRuntime,
    file: Input<'a, B>,
    opening: Opening<'a, O, P, Q>,
    serving: &Serving<'a>,
    out: &mut W,
    fault: &mut F,
) -> Ended<S>
where
    O: FnOnce() -> Result<S, OpenFault>,
    P: FnOnce() -> io::Result<Option<BufReader<R>>>,
    P: Drop,
    Q: FnOnce() -> Result<D, OpenFault>,
    Q: Drop,
    requires { O.IsAlwaysCallable opening.database.opener × P.IsAlwaysCallable opening.recording.reader
        × Q.IsAlwaysCallable opening.recording.opener }
    ensures held { result.status ≡ Status.Done → IsSome result.store }
    ensures listening { result.status ≡ Status.Done → Appends (W.contents out.old) (W.contents out.new) (listening_line serving.now.address.now) }
    ensures guarded { IsSome opening.entry.recording.path → (file_bytes list_bytes : List ℕ)
        → bytes_of B.remaining file.entry.reader ≡ Some file_bytes
        → MayHave (P.post opening.entry.recording.reader) (reader_remaining R.remaining) list_bytes
        → (left : S) → result.store ≡ Some left
        → IsGuarded S.standing (O.post opening.entry.database.opener) opening.entry.database.is_missing file_bytes
        opening.entry.recording.base list_bytes left }
    ensures quiet { result.status ≡ Status.Done → opening.entry.recording.path ≡ None
        → Keeps (F.contents fault.old) (F.contents fault.new) }
    ensures told { result.status ≡ Status.Done → IsSome opening.entry.recording.path → (file_bytes list_bytes : List ℕ)
        → bytes_of B.remaining file.entry.reader ≡ Some file_bytes
        → MayHave (P.post opening.entry.recording.reader) (reader_remaining R.remaining) list_bytes
        → SaysOtherwise S.standing (O.post opening.entry.database.opener) file_bytes opening.entry.recording.base list_bytes
        (F.contents fault.old) (F.contents fault.new) }
{
    match serve_over(rt, file, opening, serving, out, fault) {
        Ok(ended) => ended,
        Err(end) => end.print(rt.alloc(), fault),
    }
}

fn serve_over<
    'a,
    B: Read + Drop,
    R: Read + Drop,
    S: Store + Drop,
    D: Disk + Drop,
    O,
    P,
    Q,
    W: Write,
    F: Write,
>(
    rt: &HostRuntime,
    file: Input<'a, B>,
    opening: Opening<'a, O, P, Q>,
    serving: &Serving<'a>,
    out: &mut W,
    fault: &mut F,
) -> Result<Ended<S>, Stopped<'a, S>>
where
    O: FnOnce() -> Result<S, OpenFault>,
    P: FnOnce() -> io::Result<Option<BufReader<R>>>,
    P: Drop,
    Q: FnOnce() -> Result<D, OpenFault>,
    Q: Drop,
    requires { O.IsAlwaysCallable opening.database.opener × P.IsAlwaysCallable opening.recording.reader
        × Q.IsAlwaysCallable opening.recording.opener }
    ensures held { IfOk result (λ ended. IsSome ended.store) }
    ensures guarded { IsSome opening.entry.recording.path → (file_bytes list_bytes : List ℕ)
        → bytes_of B.remaining file.entry.reader ≡ Some file_bytes
        → MayHave (P.post opening.entry.recording.reader) (reader_remaining R.remaining) list_bytes
        → IfOk result (λ ended. (left : S) → ended.store ≡ Some left
        → IsGuarded S.standing (O.post opening.entry.database.opener) opening.entry.database.is_missing file_bytes
        opening.entry.recording.base list_bytes left) }
    ensures stopped { IsSome opening.entry.recording.path → (file_bytes list_bytes : List ℕ)
        → bytes_of B.remaining file.entry.reader ≡ Some file_bytes
        → MayHave (P.post opening.entry.recording.reader) (reader_remaining R.remaining) list_bytes
        → IfErr result (λ end. (left : S) → end.store ≡ Some left
        → IsGuarded S.standing (O.post opening.entry.database.opener) opening.entry.database.is_missing file_bytes
        opening.entry.recording.base list_bytes left) }
    ensures listening { OnOk result (Appends (W.contents out.old) (W.contents out.new) (listening_line serving.now.address.now)) }
    ensures quiet { opening.entry.recording.path ≡ None → Keeps (F.contents fault.old) (F.contents fault.new) }
    ensures told { IsSome opening.entry.recording.path → (file_bytes list_bytes : List ℕ)
        → bytes_of B.remaining file.entry.reader ≡ Some file_bytes
        → MayHave (P.post opening.entry.recording.reader) (reader_remaining R.remaining) list_bytes
        → IfOk result (λ ended. SaysOtherwise S.standing (O.post opening.entry.database.opener) file_bytes
        opening.entry.recording.base list_bytes (F.contents fault.old) (F.contents fault.new)) }
{
    let alloc = rt.alloc();
    let Opening {
        database,
        recording,
    } = opening;
    let Recording {
        path,
        base,
        reader,
        opener,
    } = recording;
    let building = read_building(alloc, file)?;
    let mut desk = open_kept(alloc, building, database, path, base, reader, fault)?;
    let answered = keep_and_listen(rt, &mut desk, path, opener, serving, out);
    let store = Some(desk.into_store());
    match answered {
        Ok(status) => Ok(Ended { status, store }),
        Err(fault) => Err(Stopped {
            fault: BesideFault::from(fault),
            store,
        }),
    }
}

/// Listens on the address, once the desk is level with its record.
fn keep_and_listen<'a, S: Store + Drop, D: Disk + Drop, Q, W: Write>(
    rt: &HostRuntime,
    desk: &mut Desk<S>,
    path: Option<&'a str>,
    opener: Q,
    serving: &Serving<'a>,
    out: &mut W,
) -> Result<Status, RunFault<'a>>
where
    Q: FnOnce() -> Result<D, OpenFault>,
    Q: Drop,
    requires { Q.IsAlwaysCallable opener }
    ensures { OnOk result (Appends (W.contents out.old) (W.contents out.new) (listening_line serving.now.address.now)) }
{
    let mut keeper = take_up(rt.alloc(), desk, path, opener)?;
    let path = path.unwrap_or("");
    let status = listen(rt, desk, &mut keeper, serving, out)?;
    if keeper.has_failed() {
        Err(RunFault::CannotWrite { path })
    } else {
        Ok(status)
    }
}

/// Listens on the address, prints it as a line, and takes connections.
fn listen<'a, S: Store + Drop, R: Recorder, W: Write>(
    rt: &HostRuntime,
    desk: &mut Desk<S>,
    keeper: &mut Keeper<R>,
    serving: &Serving<'a>,
    out: &mut W,
) -> Result<Status, RunFault<'a>>
    ensures { OnOk result (Appends (W.contents out.old) (W.contents out.new) (listening_line serving.now.address.now)) }
{
    let mut events = Events::with_capacity(rt.alloc(), EVENTS)?;
    let mut connections = bound(rt, serving)?;
    let line = listening_line(rt.alloc(), serving.address)?;
    print_whole(out, line.as_str())?;
    Ok(connections.serve(rt, desk, keeper, &mut events))
}

/// The connections to the address.
fn bound<'a>(rt: &HostRuntime, serving: &Serving<'a>) -> Result<Connections, RunFault<'a>> {
    let address = serving.address;
    match bind(rt, serving) {
        Ok(connections) => Ok(connections),
        Err(error) => match error.kind() {
            ErrorKind::OutOfMemory => Err(RunFault::NoMemory),
            _ => Err(RunFault::CannotListen { address }),
        },
    }
}

fn bind(rt: &HostRuntime, serving: &Serving<'_>) -> io::Result<Connections> {
    let listener = TcpListener::bind(rt, serving.address)?;
    Connections::new(rt, listener, serving.requests, serving.clock)
}

/// The line of an address that is listened on.
fn listening_line(alloc: Global, address: &str) -> Result<String, AllocError>
    ensures { IfOk result (λ line. string_bytes line ≡ listening_line address.now) }
{
    format!(in alloc; "listening {address}\n")
}
