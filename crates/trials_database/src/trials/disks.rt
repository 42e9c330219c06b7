//! Databases in two files that are kept in memory, and disks that meet trouble at a call.
use crate::trials::contents::push_content;
use crate::trials::faulty_disk::{Faulty, Trouble};
use crate::trials::scripts::{Outcome, Script, push_fault, run};
use sqlite::{Alter, Connection, FileStore, Options, Row};
use sqlite_disk::{Crash, Disk, Files, Memory};
use std::alloc::{AllocError, Global};
use std::fmt::Write;
use std::io;
use std::test::Fail;
use store::{OpenFault, Store, StoreFault};
use store_cache::Remembered;
use store_sql::SqlStore;

/// After so many pages the log is copied into the database file: few, so that it happens in the midst of a script.
const CHECKPOINT_FRAMES: usize = 16;

// A connection to the database in files; the files where they hold none.
fn connected<D: Disk + Drop>(
    alloc: Global,
    files: Files<D>,
) -> Result<Connection<FileStore<D>>, Files<D>> {
    if !files.may_be_used() {
        return Err(files);
    }
    let mut options = Options::new(7);
    options.checkpoint_frames = CHECKPOINT_FRAMES;
    match store_file::connected(alloc, files, options) {
        Ok(connection) => Ok(connection),
        Err((_error, left)) => Err(left.into_files()),
    }
}

/// The bytes of a database's two files.
#[derive(Clone, Copy)]
pub(crate) struct Image<'a> {
    pub(crate) log: &'a [u8],
    pub(crate) database: &'a [u8],
}

impl Image<'static> {
    /// Empty files.
    pub(crate) fn empty() -> Image<'static> {
        Image {
            log: &[],
            database: &[],
        }
    }
}

/// One of the two files of a database.
#[derive(Clone, Copy, Debug)]
pub(crate) enum File {
    Log,
    Database,
}

/// Where a disk meets trouble: in which file, and after how many calls of it.
#[derive(Clone, Copy, Debug)]
pub(crate) struct Place {
    pub(crate) trouble: Trouble,
    pub(crate) file: File,
    pub(crate) calls: u64,
}

impl Place {
    /// No disk makes so many calls.
    pub(crate) fn nowhere() -> Place {
        Place {
            trouble: Trouble::Stop,
            file: File::Log,
            calls: u64::MAX,
        }
    }

    // How many calls of a file pass.
    fn calls_of(self, file: File) -> u64 {
        match (self.file, file) {
            (File::Log, File::Log) | (File::Database, File::Database) => self.calls,
            _ => u64::MAX,
        }
    }
}

/// The bytes of both files, with what was written since they were synced, and without.
#[derive(Drop)]
pub(crate) struct Left {
    /// Whether a call of a file has failed.
    pub(crate) has_failed: bool,
    written_log: Vec<u8>,
    synced_log: Vec<u8>,
    written_database: Vec<u8>,
    synced_database: Vec<u8>,
}

impl Left {
    /// What a program that is killed leaves.
    pub(crate) fn written(&self) -> Image<'_> {
        Image {
            log: &self.written_log,
            database: &self.written_database,
        }
    }

    /// What a machine without power leaves.
    pub(crate) fn synced(&self) -> Image<'_> {
        Image {
            log: &self.synced_log,
            database: &self.synced_database,
        }
    }

    /// What a stop may leave: each file with what was not synced, or without.
    pub(crate) fn images(&self) -> [Image<'_>; 4] {
        let written = self.written();
        let synced = self.synced();
        [
            written,
            synced,
            Image {
                log: written.log,
                database: synced.database,
            },
            Image {
                log: synced.log,
                database: written.database,
            },
        ]
    }
}

fn memory_of(alloc: Global, bytes: &[u8]) -> io::Result<Memory> {
    let mut memory = Memory::new(alloc);
    memory.write_at(0, bytes)?;
    memory.sync()?;
    Ok(memory)
}

fn files_of(alloc: Global, image: Image<'_>, place: Place) -> io::Result<Files<Faulty<Memory>>> {
    let log = memory_of(alloc, image.log)?;
    let database = memory_of(alloc, image.database)?;
    Ok(Files {
        log: Faulty::new(log, place.trouble, place.calls_of(File::Log)),
        db: Faulty::new(database, place.trouble, place.calls_of(File::Database)),
    })
}

// The bytes of a disk, and those that are left when its machine stops.
fn bytes_of(alloc: Global, disk: Memory) -> Result<(Vec<u8>, Vec<u8>), AllocError> {
    let mut disk = disk;
    let written = Vec::from_slice(alloc, disk.bytes())?;
    disk.crash();
    Ok((written, Vec::from_slice(alloc, disk.bytes())?))
}

// What is left of files, whose machine stops.
fn left_of(alloc: Global, files: Files<Faulty<Memory>>) -> Result<Left, AllocError> {
    let Files { log, db } = files;
    let has_failed = log.has_failed() || db.has_failed();
    let (written_log, synced_log) = bytes_of(alloc, log.into_inner())?;
    let (written_database, synced_database) = bytes_of(alloc, db.into_inner())?;
    Ok(Left {
        has_failed,
        written_log,
        synced_log,
        written_database,
        synced_database,
    })
}

// A store that remembers, without what is promised of it.
fn opened<S: Store + Drop>(alloc: Global, tables: S) -> Result<Remembered<S>, (StoreFault, S)> {
    Remembered::open(alloc, tables)
}

// The tables of a connection, without what is promised of them.
fn tables_over<S: Alter + Drop>(
    alloc: Global,
    connection: Connection<S>,
) -> Result<SqlStore<S>, (OpenFault, Connection<S>)> {
    SqlStore::create_or_open(alloc, connection)
}

// Whether the tables hold what was printed of them through a store that remembers, as far as no call of them has
// failed.
fn assert_remembered<S: Store>(alloc: Global, tables: &mut S, outcome: &str) -> Result<(), Fail> {
    let mut content = String::new(alloc);
    push_content(tables, &mut content)?;
    if tables.failures() == 0 && content.as_str() != outcome {
        return Err(Fail::new("what is remembered is not what the tables hold"));
    }
    Ok(())
}

// Runs a script over tables whose answers are remembered, as the program does, and asks the tables themselves at its
// end.
fn run_remembered<S: Store + Drop>(
    alloc: Global,
    tables: S,
    script: Script<'_>,
    outcome: &mut Outcome,
) -> (Result<(), Fail>, S) {
    let remembered = match opened(alloc, tables) {
        Ok(remembered) => remembered,
        Err((fault, tables)) => return (push_fault(fault, &mut outcome.printed), tables),
    };
    let (done, remembered) = run(alloc, remembered, script, outcome);
    let mut tables = remembered.into_below();
    match done {
        Ok(()) if !outcome.after.is_empty() => {
            let done = assert_remembered(alloc, &mut tables, outcome.after.as_str());
            (done, tables)
        }
        _ => (done, tables),
    }
}

// Runs a script over the tables of a connection. What the connection stood over is given back, so that nothing of a
// database's type is dropped: that is dear to prove.
fn run_over_tables<S: Alter + Drop>(
    alloc: Global,
    connection: Connection<S>,
    script: Script<'_>,
    outcome: &mut Outcome,
) -> (Result<(), Fail>, S) {
    match tables_over(alloc, connection) {
        Ok(tables) => {
            let (done, tables) = run_remembered(alloc, tables, script, outcome);
            (done, tables.into_connection().into_store())
        }
        Err((fault, connection)) => {
            let done = push_fault(fault, &mut outcome.printed);
            (done, connection.into_store())
        }
    }
}

fn number_of(row: &Row) -> Result<i64, Fail> {
    Ok(row.get::<i64>(0)?)
}

fn push_number(mark: &str, number: i64, text: &mut String) -> Result<(), Fail> {
    write!(text, "{mark}{number}")?;
    Ok(())
}

fn push_rows(rows: &[Row], text: &mut String) -> Result<(), Fail> {
    let mut mark = "";
    for row in rows {
        push_number(mark, number_of(row)?, text)?;
        mark = " ";
    }
    text.push(';')?;
    Ok(())
}

// Asks queries whose rows have one number each, and appends these.
fn push_answers<S: Alter>(
    connection: &mut Connection<S>,
    queries: &[&str],
    text: &mut String,
) -> Result<(), Fail> {
    for query in queries {
        let rows = connection.query_all(query, &[])?;
        push_rows(rows.as_slice(), text)?;
    }
    Ok(())
}

fn execute_and_ask<S: Alter>(
    connection: &mut Connection<S>,
    statements: &str,
    queries: &[&str],
    text: &mut String,
) -> Result<(), Fail> {
    connection.execute_batch(statements)?;
    push_answers(connection, queries, text)
}

// Executes statements and asks queries. What the connection stood over is given back.
fn run_over_connection<S: Alter + Drop>(
    connection: Connection<S>,
    statements: &str,
    queries: &[&str],
    text: &mut String,
) -> (Result<(), Fail>, S) {
    let mut connection = connection;
    let done = execute_and_ask(&mut connection, statements, queries, text);
    (done, connection.into_store())
}

// What is done with a database, and where that is printed.
#[derive(Drop)]
enum Work<'a> {
    Deliver {
        script: Script<'a>,
        outcome: &'a mut Outcome,
    },
    Ask {
        statements: &'a str,
        queries: &'a [&'a str],
        text: &'a mut String,
    },
}

// What the connection stood over is given back.
fn work_over<S: Alter + Drop>(
    alloc: Global,
    connection: Connection<S>,
    work: Work<'_>,
) -> (Result<(), Fail>, S) {
    match work {
        Work::Deliver { script, outcome } => run_over_tables(alloc, connection, script, outcome),
        Work::Ask {
            statements,
            queries,
            text,
        } => run_over_connection(connection, statements, queries, text),
    }
}

fn work_without_database(work: Work<'_>) -> Result<(), Fail> {
    match work {
        Work::Deliver { outcome, .. } => push_fault("no database", &mut outcome.printed),
        Work::Ask { .. } => Err(Fail::new("no database")),
    }
}

// Works over the database in files, and gives these back. Each function that names a store in files is dear to prove,
// so there is one for all work.
fn work_in_files<D: Disk + Drop>(
    alloc: Global,
    files: Files<D>,
    work: Work<'_>,
) -> (Result<(), Fail>, Files<D>) {
    match connected(alloc, files) {
        Ok(connection) => {
            let (done, store) = work_over(alloc, connection, work);
            (done, store.close())
        }
        Err(files) => (work_without_database(work), files),
    }
}

// Works over the database in files that meet trouble at a place.
fn work_on_disk(
    alloc: Global,
    image: Image<'_>,
    place: Place,
    work: Work<'_>,
) -> Result<Left, Fail> {
    let (done, files) = work_in_files(alloc, files_of(alloc, image, place)?, work);
    done?;
    Ok(left_of(alloc, files)?)
}

/// Runs a script over the store in files that meet trouble at a place. The store is made where there is none; where
/// none is opened, that is printed in place of the replies.
pub(crate) fn run_on_disk(
    alloc: Global,
    image: Image<'_>,
    place: Place,
    script: Script<'_>,
    outcome: &mut Outcome,
) -> Result<Left, Fail> {
    work_on_disk(alloc, image, place, Work::Deliver { script, outcome })
}

/// Executes statements on the database in files, without a store, and appends what it answers then to queries: their
/// rows have one number each.
pub(crate) fn run_statements(
    alloc: Global,
    image: Image<'_>,
    statements: &str,
    queries: &[&str],
    text: &mut String,
) -> Result<Left, Fail> {
    let work = Work::Ask {
        statements,
        queries,
        text,
    };
    work_on_disk(alloc, image, Place::nowhere(), work)
}
