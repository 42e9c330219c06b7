//! The run that makes a database for a building that changed.
use crate::new_database::{NewDatabase, find_free, part_of};
use cli_check::{FindFault, MakeFault, Paths, adopt_database, finish};
use cli_common::{Input, Status};
use std::fs;
use std::io::{self, BufWriter, Read, Write};
use store::{OpenFault, Store, StoreFault};
use store_file::{DeskStore, Found, close_store, find_store_as_it_is};
use store_memory::MemStore;

/// What an adoption is to do.
#[derive(Clone, Copy)]
pub struct Adoption<'a> {
    /// The path of the building file.
    pub file: &'a str,
    /// The path of the database, which is only read.
    pub database: &'a str,
    /// The path of the one that is made.
    pub made: &'a str,
    /// The renamings, each `OLD=NEW`.
    pub renamings: &'a [&'a str],
    /// Whether nothing is made.
    pub dry_run: bool,
}

/// Where an adoption finds its earlier store, and what becomes of the one that it makes. One type for all of it, since
/// a call that names the types of several stores and closures is dear to prove.
trait Databases {
    type Earlier: Store + Drop;

    type Made: Store + Drop;

    /// The store in the database that is read, if there is one.
    fn find(&self) -> Result<Option<Self::Earlier>, FindFault>;

    /// The store that is made, which is empty.
    fn make(&self) -> Result<Self::Made, MakeFault>;

    /// Closes the store that was made.
    fn close(&self, made: Self::Made) -> Result<(), StoreFault>;

    /// Puts what was made in its place, where a stop no longer takes it away.
    fn place(&self) -> io::Result<()>;

    /// Removes what was put in its place.
    fn withdraw(&self);
}

/// Two databases of files. The one that is made stands beside its place until it is whole.
#[derive(Drop)]
struct InFiles<'a> {
    rt: &'a HostRuntime,
    database: &'a str,
    made: NewDatabase<'a>,
}

/// The store that a search finds, unless to open it is to change it.
fn found_by<S: Store + Drop, O>(finder: O) -> Result<Option<S>, FindFault>
where
    O: FnOnce() -> Result<Found<S>, OpenFault>,
    O: Drop,
    requires { O.IsAlwaysCallable finder }
{
    match finder() {
        Ok(Found::Nothing) => Ok(None),
        Ok(Found::FirstVersion) => Err(FindFault::FirstVersion),
        Ok(Found::Store(store)) => Ok(Some(store)),
        Err(fault) => Err(FindFault::NotOpened(fault)),
    }
}

/// The same where both stores are of one type. That `InFiles` is such a pair can be proved; that it is one of two
/// types, of which each is that of a real store, takes more steps than the prover gives one declaration.
trait Pair {
    type Held: Store + Drop;

    fn find(&self) -> Result<Option<Self::Held>, FindFault>;

    fn make(&self) -> Result<Self::Held, MakeFault>;

    fn close(&self, made: Self::Held) -> Result<(), StoreFault>;

    fn place(&self) -> io::Result<()>;

    fn withdraw(&self);
}

/// A pair, as databases.
#[derive(Drop)]
struct Paired<P> {
    pair: P,
}

impl<P: Pair> Databases for Paired<P> {
    type Earlier = P::Held;

    type Made = P::Held;

    fn find(&self) -> Result<Option<P::Held>, FindFault> {
        self.pair.find()
    }

    fn make(&self) -> Result<P::Held, MakeFault> {
        self.pair.make()
    }

    fn close(&self, made: P::Held) -> Result<(), StoreFault> {
        self.pair.close(made)
    }

    fn place(&self) -> io::Result<()> {
        self.pair.place()
    }

    fn withdraw(&self) {
        self.pair.withdraw();
    }
}

impl Pair for InFiles<'_> {
    type Held = DeskStore;

    fn find(&self) -> Result<Option<DeskStore>, FindFault> {
        found_by(|| find_store_as_it_is(self.rt, self.database))
    }

    fn make(&self) -> Result<DeskStore, MakeFault> {
        self.made.make()
    }

    fn close(&self, made: DeskStore) -> Result<(), StoreFault> {
        close_store(made)
    }

    fn place(&self) -> io::Result<()> {
        self.made.place()
    }

    fn withdraw(&self) {
        self.made.withdraw();
    }
}

/// A database of a file, and tables in memory in the place of one that would be made.
#[derive(Drop)]
struct InMemory<'a> {
    rt: &'a HostRuntime,
    database: &'a str,
    /// Whether it could be made.
    claimed: Result<(), MakeFault>,
}

impl Databases for InMemory<'_> {
    type Earlier = DeskStore;

    type Made = MemStore;

    fn find(&self) -> Result<Option<DeskStore>, FindFault> {
        found_by(|| find_store_as_it_is(self.rt, self.database))
    }

    fn make(&self) -> Result<MemStore, MakeFault> {
        match self.claimed {
            Err(fault) => Err(fault),
            Ok(()) => Ok(MemStore::new(self.rt.alloc())),
        }
    }

    fn close(&self, _made: MemStore) -> Result<(), StoreFault> {
        Ok(())
    }

    fn place(&self) -> io::Result<()> {
        Ok(())
    }

    fn withdraw(&self) {}
}

/// Makes the database that is asked for and then prints what it took along, or prints what it would. Nothing of it is
/// left where the run is not done, also where the output failed. It is an error where memory for a path or for the
/// output's buffer is refused.
pub fn run(rt: &HostRuntime, adoption: Adoption<'_>) -> io::Result<Status> {
    if adoption.dry_run {
        return run_in_memory(rt, adoption);
    }
    let part = part_of(rt, adoption.made)?;
    let made = NewDatabase::claim(rt, adoption.made, part.as_str());
    made.end(run_in_files(rt, adoption, made))
}

/// The run whose tables are made in memory alone.
fn run_in_memory(rt: &HostRuntime, adoption: Adoption<'_>) -> io::Result<Status> {
    let databases = InMemory {
        rt,
        database: adoption.database,
        claimed: find_free(rt, adoption.made),
    };
    run_in(rt, adoption, &databases)
}

/// The run that makes its database in files.
fn run_in_files(
    rt: &HostRuntime,
    adoption: Adoption<'_>,
    made: NewDatabase<'_>,
) -> io::Result<Status> {
    let pair = InFiles {
        rt,
        database: adoption.database,
        made,
    };
    run_in_pair(rt, adoption, pair)
}

fn run_in_pair<P: Pair + Drop>(
    rt: &HostRuntime,
    adoption: Adoption<'_>,
    pair: P,
) -> io::Result<Status> {
    run_in(rt, adoption, &Paired { pair })
}

/// The run over the building's file and the standard streams.
fn run_in<D: Databases>(
    rt: &HostRuntime,
    adoption: Adoption<'_>,
    databases: &D,
) -> io::Result<Status> {
    let mut out = BufWriter::new(rt.alloc(), io::writer(rt))?;
    let building = Input {
        path: adoption.file,
        reader: fs::open(rt, adoption.file),
    };
    Ok(run_over(
        rt,
        building,
        adoption,
        databases,
        &mut out,
        &mut rt.stderr(),
    ))
}

fn run_over<'a, B: Read + Drop, D: Databases, W: Write, F: Write>(
    rt: &HostRuntime,
    building: Input<'a, B>,
    adoption: Adoption<'a>,
    databases: &D,
    out: &mut W,
    fault: &mut F,
) -> Status {
    let paths = Paths {
        database: adoption.database,
        made: adoption.made,
    };
    let finder = || databases.find();
    let maker = || databases.make();
    let adopted = adopt_database(
        rt.alloc(),
        building,
        adoption.renamings,
        paths,
        finder,
        maker,
        fault,
    );
    let closer = |made| databases.close(made);
    let placer = || databases.place();
    let withdrawer = || databases.withdraw();
    finish(
        rt.alloc(),
        adopted,
        adoption.made,
        closer,
        placer,
        withdrawer,
        out,
        fault,
    )
}
