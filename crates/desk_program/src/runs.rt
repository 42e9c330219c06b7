//! The runs of the subcommands that take a database.
use crate::bases::base_under;
use crate::checks::is_nothing_at;
use cli_common::{Input, Status};
use cli_record::Database;
use cli_store::{
    ClockDelivery, Ended, Opening, Recording, Serving, deliver, finish, report, serve,
};
use sqlite_disk::Disk;
use std::alloc::Global;
use std::fs::{self, File};
use std::io::{self, BufReader, BufWriter, ErrorKind, Read, Write};
use store::{OpenFault, Store, StoreFault};
use store_cache::Remembered;
use store_file::{DeskStore, close_store, open_record, open_store};
use store_memory::MemStore;

/// What a run over a database does.
#[derive(Clone, Copy)]
pub enum DatabaseRun<'a> {
    /// The import of the holiday list of this path: `desk import`.
    Import { holidays: &'a str },
    /// A tick at this moment, in hundredths of a second since 1970: `desk tick`.
    Tick { at: i64 },
    /// The report of this day, `YYYY-MM-DD`: `desk report`.
    Report { date: &'a str },
    /// To answer requests: `desk serve`.
    Serve(Serving<'a>),
}

/// Makes a run over the building and the database of these paths, and writes each delivery down in the record of a
/// path, if there is one. It is an error where memory for the output's buffer is refused.
pub fn run<'a>(
    rt: &HostRuntime,
    file: &'a str,
    database: &'a str,
    record: Option<&'a str>,
    run: &DatabaseRun<'a>,
) -> io::Result<Status> {
    let base = match record {
        Some(record) => base_under(rt, record)?,
        None => Ok(None),
    };
    match base {
        Ok(base) => {
            let kept = Kept { record, base };
            run_and_close(rt, file, database, &InFile { rt, database }, kept, run)
        }
        Err(status) => Ok(status),
    }
}

/// The path of the record of a run, if it keeps one, and the tables of its base, if it stands on one.
#[derive(Drop)]
struct Kept<'a> {
    record: Option<&'a str>,
    base: Option<MemStore>,
}

/// Where a run has its store, and how it closes it. A trait, since a call that names the types of a real store and of
/// closures over it is dear to prove.
trait Home {
    type Held: Store + Drop;

    fn open(&self) -> Result<Self::Held, OpenFault>;

    fn close(&self, held: Self::Held) -> Result<(), StoreFault>;
}

/// The database of a path.
#[derive(Drop)]
struct InFile<'a> {
    rt: &'a HostRuntime,
    database: &'a str,
}

impl Home for InFile<'_> {
    type Held = DeskStore;

    fn open(&self) -> Result<DeskStore, OpenFault> {
        open_store(self.rt, self.database)
    }

    fn close(&self, held: DeskStore) -> Result<(), StoreFault> {
        close_store(held)
    }
}

/// Makes a run over the store that its home opens, of the database of this path, and closes it at its end.
fn run_and_close<'a, H: Home>(
    rt: &HostRuntime,
    file: &'a str,
    path: &'a str,
    home: &H,
    kept: Kept<'a>,
    run: &DatabaseRun<'a>,
) -> io::Result<Status> {
    let mut out = BufWriter::new(rt.alloc(), io::writer(rt))?;
    let input_of = |path| Input {
        path,
        reader: fs::open(rt, path),
    };
    let database = Database {
        path,
        is_missing: is_nothing_at(rt, path),
        opener: || home.open(),
    };
    let closer = |held| home.close(held);
    let fault = &mut rt.stderr();
    let ended = run_remembered(rt, file, input_of, database, kept, run, &mut out, fault);
    Ok(finish(rt.alloc(), ended, closer, fault))
}

/// The lines of the record of a path; none where there is no file. What is no plain file is not read, since it may have
/// no end.
fn found_record(rt: &HostRuntime, path: &str) -> io::Result<Option<BufReader<File>>> {
    match fs::metadata(rt, path) {
        Ok(found) if found.is_file() => {
            Ok(Some(BufReader::new(rt.alloc(), fs::open(rt, path)?)?))
        }
        Ok(_) => Err(io::Error::from(ErrorKind::InvalidInput)),
        Err(error) if error.kind() == ErrorKind::NotFound => Ok(None),
        Err(error) => Err(error),
    }
}

/// A store over the one that is opened, which answers from memory what it was asked before.
fn remembered<S: Store + Drop, O>(alloc: Global, opener: O) -> Result<Remembered<S>, OpenFault>
where
    O: FnOnce() -> Result<S, OpenFault>,
    requires { O.IsAlwaysCallable opener }
{
    match Remembered::open(alloc, opener()?) {
        Ok(store) => Ok(store),
        Err((StoreFault::NoMemory, _store)) => Err(OpenFault::NoMemory),
        Err((StoreFault::BadRow, _store)) => Err(OpenFault::BadRow),
        Err((StoreFault::Failed | StoreFault::Shut, _store)) => Err(OpenFault::Failed),
    }
}

/// The same end, with the store below the one that remembers.
fn below_of<S: Store + Drop>(ended: Ended<Remembered<S>>) -> Ended<S> {
    let Ended { status, store } = ended;
    let store = match store {
        Some(store) => Some(store.into_below()),
        None => None,
    };
    Ended { status, store }
}

/// The same over the files and the store that these calls open, and over the real file of the record; what the store
/// answers is remembered as long as the run lasts. A call that names the types of both a real store and a real record
/// takes more steps than the prover gives one declaration.
fn run_remembered<'a, B: Read + Drop, S: Store + Drop, I, O, W: Write, F: Write>(
    rt: &HostRuntime,
    file: &'a str,
    input_of: I,
    database: Database<'a, O>,
    kept: Kept<'a>,
    run: &DatabaseRun<'a>,
    out: &mut W,
    fault: &mut F,
) -> Ended<S>
where
    I: Fn(&'a str) -> Input<'a, B>,
    O: FnOnce() -> Result<S, OpenFault>,
    requires reads { I.IsAlwaysCallable input_of }
    requires opens { O.IsAlwaysCallable database.opener }
{
    let alloc = rt.alloc();
    let Database {
        path,
        is_missing,
        opener,
    } = database;
    let database = Database {
        path,
        is_missing,
        opener: move || remembered(alloc, opener),
    };
    let Kept { record, base } = kept;
    let recording = Recording {
        path: record,
        base,
        reader: || found_record(rt, record.unwrap_or("")),
        opener: || open_record(rt, record.unwrap_or("")),
    };
    let opening = Opening {
        database,
        recording,
    };
    below_of(run_over(rt, file, input_of, opening, run, out, fault))
}

/// What opens the store.
fn opener_of<'a, S: Store + Drop, O, P, Q>(opening: Opening<'a, O, P, Q>) -> O
where
    O: FnOnce() -> Result<S, OpenFault>,
    P: Drop,
    Q: Drop,
    requires { O.IsAlwaysCallable opening.database.opener }
    ensures { O.IsAlwaysCallable result }
{
    opening.database.opener
}

/// Makes a run over the files, the store and the record that these calls open. It is generic over them, since a call
/// that names their types is dear to prove.
fn run_over<
    'a,
    B: Read + Drop,
    R: Read + Drop,
    S: Store + Drop,
    D: Disk + Drop,
    I,
    O,
    P,
    Q,
    W: Write,
    F: Write,
>(
    rt: &HostRuntime,
    file: &'a str,
    input_of: I,
    opening: Opening<'a, O, P, Q>,
    run: &DatabaseRun<'a>,
    out: &mut W,
    fault: &mut F,
) -> Ended<S>
where
    I: Fn(&'a str) -> Input<'a, B>,
    O: FnOnce() -> Result<S, OpenFault>,
    P: FnOnce() -> io::Result<Option<BufReader<R>>>,
    P: Drop,
    Q: FnOnce() -> Result<D, OpenFault>,
    Q: Drop,
    requires reads { I.IsAlwaysCallable input_of }
    requires opens { O.IsAlwaysCallable opening.database.opener × P.IsAlwaysCallable opening.recording.reader
        × Q.IsAlwaysCallable opening.recording.opener }
{
    let alloc = rt.alloc();
    let file = input_of(file);
    match run {
        DatabaseRun::Import { holidays } => {
            let list = input_of(holidays);
            deliver(
                alloc,
                file,
                ClockDelivery::Import { list },
                opening,
                out,
                fault,
            )
            .into_ended()
        }
        DatabaseRun::Tick { at } => {
            let asked: ClockDelivery<'a, B> = ClockDelivery::Tick { at: *at };
            deliver(alloc, file, asked, opening, out, fault).into_ended()
        }
        DatabaseRun::Report { date } => {
            report(alloc, file, opener_of(opening), date, out, fault)
        }
        DatabaseRun::Serve(serving) => serve(rt, file, opening, serving, out, fault),
    }
}
