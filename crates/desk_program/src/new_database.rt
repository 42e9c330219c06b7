//! The database that a run makes. It stands beside its place until it is whole.
use cli_check::MakeFault;
use cli_common::Status;
use std::alloc::AllocError;
use std::fs::{self, File};
use std::io::{self, ErrorKind};
use store::{OpenFault, Store};
use store_file::{DeskStore, open_store};

/// A new database and its two paths: its place, and where it is made.
#[derive(Clone, Copy)]
pub struct NewDatabase<'a> {
    rt: &'a HostRuntime,
    made: &'a str,
    part: &'a str,
    /// Whether the run has the file at `part` for its own.
    claimed: Result<(), MakeFault>,
}

/// The path at which the database of another one is made.
pub fn part_of(rt: &HostRuntime, made: &str) -> Result<String, AllocError> {
    format!(in rt.alloc(); "{made}.part")
}

impl<'a> NewDatabase<'a> {
    /// Makes the empty file at `part`, for this run alone, where nothing is in the way there or at the place `made`.
    pub fn claim(rt: &'a HostRuntime, made: &'a str, part: &'a str) -> Self {
        NewDatabase {
            rt,
            made,
            part,
            claimed: claim(rt, made, part),
        }
    }

    /// The store of the database, which is empty.
    pub fn make(&self) -> Result<DeskStore, MakeFault> {
        made_by(self.claimed, || open_store(self.rt, self.part))
    }

    /// Puts the database in its place, where a stop no longer takes it away.
    pub fn place(&self) -> io::Result<()> {
        if stands_at(self.rt, self.made) {
            return Err(io::Error::from(ErrorKind::AlreadyExists));
        }
        remove_log(self.rt, self.part)?;
        fs::rename(self.rt, self.part, self.made)?;
        let kept = keep_name(self.rt, self.made);
        if kept.is_err() {
            self.withdraw();
        }
        kept
    }

    /// Removes what was put in its place.
    pub fn withdraw(&self) {
        let _removed = fs::remove_file(self.rt, self.made);
    }

    /// Hands on how the run ended, and removes what one that failed has left at `part`. What can't be removed is found by
    /// the next run.
    pub fn end(&self, status: io::Result<Status>) -> io::Result<Status> {
        if self.claimed.is_ok() && !is_done(&status) {
            let _log = remove_log(self.rt, self.part);
            let _part = fs::remove_file(self.rt, self.part);
        }
        status
    }
}

fn is_done(status: &io::Result<Status>) -> bool {
    match status {
        Ok(Status::Done) => true,
        _ => false,
    }
}

/// The store that a call opens, where nothing is in the way.
fn made_by<S: Store + Drop, O>(claimed: Result<(), MakeFault>, opener: O) -> Result<S, MakeFault>
where
    O: FnOnce() -> Result<S, OpenFault>,
    O: Drop,
    requires { O.IsAlwaysCallable opener }
{
    match claimed {
        Err(fault) => Err(fault),
        Ok(()) => match opener() {
            Ok(store) => Ok(store),
            Err(fault) => Err(MakeFault::NotOpened(fault)),
        },
    }
}

/// Whether something is at a path, also where that can't be known. Nothing has a name that is too long.
pub fn stands_at(rt: &HostRuntime, path: &str) -> bool {
    match fs::symlink_metadata(rt, path) {
        Ok(_) => true,
        Err(error) => !matches!(
            error.kind(),
            ErrorKind::NotFound | ErrorKind::InvalidFilename
        ),
    }
}

/// Removes the log beside a database, where there is one.
fn remove_log(rt: &HostRuntime, database: &str) -> io::Result<()> {
    let log = log_of(rt, database)?;
    match fs::remove_file(rt, log.as_str()) {
        Ok(()) => Ok(()),
        Err(error) if error.kind() == ErrorKind::NotFound => Ok(()),
        Err(error) => Err(error),
    }
}

/// The path of the log beside a database.
pub fn log_of(rt: &HostRuntime, database: &str) -> Result<String, AllocError> {
    format!(in rt.alloc(); "{database}-wal")
}

/// Has the disk keep the name of a file that was put in its folder.
fn keep_name(rt: &HostRuntime, path: &str) -> io::Result<()> {
    let folder = match path.rsplit_once('/') {
        Some(("", _)) => "/",
        Some((folder, _)) => folder,
        None => ".",
    };
    File::open(rt, folder)?.sync_all()
}

/// Whether something stands where the log of a database is to be.
fn has_log(rt: &HostRuntime, database: &str) -> Result<bool, MakeFault> {
    match log_of(rt, database) {
        Ok(log) => Ok(stands_at(rt, log.as_str())),
        Err(AllocError) => Err(MakeFault::NotOpened(OpenFault::NoMemory)),
    }
}

/// Sees that nothing stands where the new database is to be.
pub fn find_free(rt: &HostRuntime, made: &str) -> Result<(), MakeFault> {
    if stands_at(rt, made) || has_log(rt, made)? {
        return Err(MakeFault::Taken);
    }
    Ok(())
}

/// Makes the empty file in which the new database is made, for this run alone, where no log is beside it.
fn claim(rt: &HostRuntime, made: &str, part: &str) -> Result<(), MakeFault> {
    find_free(rt, made)?;
    if stands_at(rt, part) {
        return Err(MakeFault::PartTaken);
    }
    if has_log(rt, part)? {
        return Err(MakeFault::PartLogTaken);
    }
    match File::create_new(rt, part) {
        Ok(_file) => Ok(()),
        Err(error) => match error.kind() {
            ErrorKind::AlreadyExists => Err(MakeFault::PartTaken),
            ErrorKind::OutOfMemory => Err(MakeFault::NotOpened(OpenFault::NoMemory)),
            _ => Err(MakeFault::NotOpened(OpenFault::Failed)),
        },
    }
}
