//! The run that makes a database from a record.
use crate::bases::base_under;
use crate::new_database::{NewDatabase, part_of};
use cli_check::{MakeFault, finish};
use cli_common::{Input, ListInput, Status};
use cli_rebuild::rebuild_database;
use std::fs::{self, File};
use std::io::{self, BufReader, BufWriter, Read, Write};
use store::{Store, StoreFault};
use store_file::{DeskStore, close_store};
use store_memory::MemStore;

/// The paths of a rebuild.
#[derive(Clone, Copy)]
pub struct Rebuild<'a> {
    /// The building file.
    pub file: &'a str,
    /// The record.
    pub record: &'a str,
    /// The database that is made.
    pub database: &'a str,
}

/// What becomes of the store that a rebuild makes. A trait, since a call that names the types of a real store and of
/// closures over it is dear to prove.
trait Place {
    type Made: Store + Drop;

    /// The store that is made, which is empty.
    fn make(&self) -> Result<Self::Made, MakeFault>;

    /// Closes the store that was made.
    fn close(&self, made: Self::Made) -> Result<(), StoreFault>;

    /// Puts what was made in its place, where a stop no longer takes it away.
    fn place(&self) -> io::Result<()>;

    /// Removes what was put in its place.
    fn withdraw(&self);
}

impl Place for NewDatabase<'_> {
    type Made = DeskStore;

    fn make(&self) -> Result<DeskStore, MakeFault> {
        NewDatabase::make(self)
    }

    fn close(&self, made: DeskStore) -> Result<(), StoreFault> {
        close_store(made)
    }

    fn place(&self) -> io::Result<()> {
        NewDatabase::place(self)
    }

    fn withdraw(&self) {
        NewDatabase::withdraw(self);
    }
}

/// Makes a database from a record, and then prints what it holds. Nothing of it is left where the run is not done, also
/// where the output failed. It is an error where memory for a path or for the output's buffer is refused.
pub fn run(rt: &HostRuntime, rebuild: Rebuild<'_>) -> io::Result<Status> {
    let base = match base_under(rt, rebuild.record)? {
        Ok(base) => base,
        Err(status) => return Ok(status),
    };
    let part = part_of(rt, rebuild.database)?;
    let made = NewDatabase::claim(rt, rebuild.database, part.as_str());
    made.end(run_in(rt, rebuild, base, &made))
}

/// The lines of the record of a path.
fn record_at(rt: &HostRuntime, path: &str) -> io::Result<Option<BufReader<File>>> {
    Ok(Some(BufReader::new(rt.alloc(), fs::open(rt, path)?)?))
}

/// The run over the files and the standard streams.
fn run_in<H: Place>(
    rt: &HostRuntime,
    rebuild: Rebuild<'_>,
    base: Option<MemStore>,
    place: &H,
) -> io::Result<Status> {
    let mut out = BufWriter::new(rt.alloc(), io::writer(rt))?;
    let building = Input {
        path: rebuild.file,
        reader: fs::open(rt, rebuild.file),
    };
    let list = ListInput {
        path: rebuild.record,
        open: || record_at(rt, rebuild.record),
    };
    let fault = &mut rt.stderr();
    Ok(run_over(
        rt,
        building,
        list,
        base,
        rebuild.database,
        place,
        &mut out,
        fault,
    ))
}

/// The same over the files, and generic over them too.
fn run_over<'a, B: Read + Drop, D: Read + Drop, P, H: Place, W: Write, F: Write>(
    rt: &HostRuntime,
    building: Input<'a, B>,
    list: ListInput<'a, P>,
    base: Option<MemStore>,
    database: &'a str,
    place: &H,
    out: &mut W,
    fault: &mut F,
) -> Status
where
    P: FnOnce() -> io::Result<Option<BufReader<D>>>,
    requires { P.IsAlwaysCallable list.open }
{
    let alloc = rt.alloc();
    let rebuilt = rebuild_database(
        alloc,
        building,
        list,
        base,
        database,
        || place.make(),
        fault,
    );
    let closer = |made| place.close(made);
    let placer = || place.place();
    let withdrawer = || place.withdraw();
    finish(
        alloc, rebuilt, database, closer, placer, withdrawer, out, fault,
    )
}
