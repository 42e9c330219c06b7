//! Why an adoption stopped.
ghost use Rattle.std.specs.Prelude.{◌≡◌};

use cli_common::{RunFault, Status, print_fault};
use desk_adopt::{AdoptFault, Renaming};
use points::Name;
use std::alloc::{AllocError, AllocFailed, Global};
use std::fmt;
use std::io::Write;
use store::{OpenFault, StoreFault};

/// Why no database is found.
#[derive(Clone, Copy)]
pub enum FindFault {
    /// Its tables are of version 1: to open them is to change them.
    FirstVersion,
    /// It could not be opened.
    NotOpened(OpenFault),
}

/// Why no database is made.
#[derive(Clone, Copy)]
pub enum MakeFault {
    /// Something is at its path.
    Taken,
    /// Something is where it is made before it is put in its place.
    PartTaken,
    /// Something is where the log of that would be.
    PartLogTaken,
    /// It could not be opened.
    NotOpened(OpenFault),
}

/// Why a renaming among the words is none.
#[derive(Clone, Copy)]
pub enum RenamingFault {
    /// It is no `OLD=NEW_NAME`.
    Malformed,
    /// It renames a name that an earlier one renames.
    RenamedTwice(Name),
    /// It renames to a name that an earlier one renames to.
    TakenTwice(Name),
    /// It renames to a name that the building lacks.
    NotInBuilding(Name),
}

impl fmt::Display for RenamingFault {
    fn fmt<W: fmt::Write>(&self, f: &mut fmt::Formatter<W>) -> fmt::Result {
        match self {
            RenamingFault::Malformed => f.write_str("two names are wanted, as OLD=NEW"),
            RenamingFault::RenamedTwice(name) => write!(f, "{name} is renamed twice"),
            RenamingFault::TakenTwice(name) => write!(f, "two are to be {name}"),
            RenamingFault::NotInBuilding(name) => write!(f, "{name} is not in the building"),
        }
    }
}

/// Why a run that makes a database stopped, an adoption or a rebuild. Its text is the line of the fault, without the line
/// end.
#[derive(Drop)]
pub enum AdoptionFault<'a> {
    /// As any run stops.
    Run(RunFault<'a>),
    /// The database of this path has tables of version 1, which would be changed.
    FirstVersion { path: &'a str },
    /// Something is at this path, where the new database is to be.
    Taken { path: &'a str },
    /// Something is where the database of this path is made before it is put in its place.
    PartTaken { path: &'a str },
    /// Something is where the log of that would be.
    PartLogTaken { path: &'a str },
    /// The new database could not be put in its place, this path.
    NotPlaced { path: &'a str },
    /// The new database of this path could not be opened.
    NotOpened { path: &'a str, fault: OpenFault },
    /// The new tables in the database of this path could not be written or read.
    NotWritten { path: &'a str, fault: StoreFault },
    /// This text among the words is no renaming.
    NotARenaming { text: String, fault: RenamingFault },
    /// By this renaming two things of the tables would be one.
    Joined(Renaming),
    /// At the moment of the last tick, in hundredths of a second since 1970, the building's clock shows no time.
    NoTime { moment: i64 },
}

impl<'a> AdoptionFault<'a> {
    /// What ends an adoption whose database, of this path, is not found.
    pub fn of_finding(fault: FindFault, path: &'a str) -> AdoptionFault<'a> {
        match fault {
            FindFault::FirstVersion => AdoptionFault::FirstVersion { path },
            FindFault::NotOpened(fault) => AdoptionFault::Run(RunFault::from(fault)),
        }
    }

    /// What ends an adoption whose new database, of this path, is not made.
    pub fn of_making(fault: MakeFault, path: &'a str) -> AdoptionFault<'a> {
        match fault {
            MakeFault::Taken => AdoptionFault::Taken { path },
            MakeFault::PartTaken => AdoptionFault::PartTaken { path },
            MakeFault::PartLogTaken => AdoptionFault::PartLogTaken { path },
            MakeFault::NotOpened(OpenFault::NoMemory) => AdoptionFault::Run(RunFault::NoMemory),
            MakeFault::NotOpened(fault) => AdoptionFault::NotOpened { path, fault },
        }
    }

    /// What ends an adoption whose new tables, in the database of this path, are not written or read.
    pub fn of_writing(fault: StoreFault, path: &'a str) -> AdoptionFault<'a> {
        match fault {
            StoreFault::NoMemory => AdoptionFault::Run(RunFault::NoMemory),
            fault => AdoptionFault::NotWritten { path, fault },
        }
    }

    /// What ends an adoption where nothing was taken along into the database of this path.
    pub fn of_adopting(fault: AdoptFault, path: &'a str) -> AdoptionFault<'a> {
        match fault {
            AdoptFault::Old(fault) => AdoptionFault::Run(RunFault::from(fault)),
            AdoptFault::Joined(renaming) => AdoptionFault::Joined(renaming),
            AdoptFault::OutOfRange => AdoptionFault::Run(RunFault::Store(StoreFault::BadRow)),
            AdoptFault::New(fault) => AdoptionFault::of_writing(fault, path),
        }
    }

    /// What the program ends with.
    pub fn status(&self) -> Status
        ensures { (result ≡ Status.Done) → ⊥ }
    {
        match self {
            AdoptionFault::Run(fault) => fault.status(),
            AdoptionFault::FirstVersion { .. }
            | AdoptionFault::Taken { .. }
            | AdoptionFault::PartTaken { .. }
            | AdoptionFault::PartLogTaken { .. }
            | AdoptionFault::Joined(_)
            | AdoptionFault::NoTime { .. }
            | AdoptionFault::NotARenaming {
                fault: RenamingFault::NotInBuilding(_),
                ..
            } => Status::Fault,
            AdoptionFault::NotARenaming { .. } => Status::Words,
            AdoptionFault::NotPlaced { .. }
            | AdoptionFault::NotOpened { .. }
            | AdoptionFault::NotWritten { .. } => Status::Store,
        }
    }

    /// Prints the fault as one line.
    pub fn print<F: Write>(&self, alloc: Global, out: &mut F) {
        print_fault(alloc, self, out);
    }
}

impl fmt::Display for AdoptionFault<'_> {
    fn fmt<W: fmt::Write>(&self, f: &mut fmt::Formatter<W>) -> fmt::Result {
        match self {
            AdoptionFault::Run(fault) => write!(f, "{fault}"),
            AdoptionFault::FirstVersion { path } => write!(
                f,
                "desk: {path} has tables of version 1: run desk report over it first, which makes them of version 2"
            ),
            AdoptionFault::Taken { path } => write!(f, "desk: {path} is there already"),
            AdoptionFault::PartTaken { path } => write!(f, "desk: {path}.part is there already"),
            AdoptionFault::PartLogTaken { path } => {
                write!(f, "desk: {path}.part-wal is there already")
            }
            AdoptionFault::NotPlaced { path } => write!(f, "desk: cannot write {path}"),
            AdoptionFault::NotOpened { path, fault } => {
                write!(f, "desk: store fault {fault} at {path}")
            }
            AdoptionFault::NotWritten { path, fault } => {
                write!(f, "desk: store fault {fault} at {path}")
            }
            AdoptionFault::NotARenaming { text, fault } => {
                write!(f, "desk: --rename {text}: {fault}")
            }
            AdoptionFault::Joined(Renaming { old, new }) => {
                write!(f, "desk: --rename {old}={new}: both are in the tables")
            }
            AdoptionFault::NoTime { moment } => write!(
                f,
                "desk: last tick {moment}: the building's clock shows no time then"
            ),
        }
    }
}

impl<'a> From<RunFault<'a>> for AdoptionFault<'a> {
    ghost use Rattle.cli_check.specs.declared.adoption_fault.AdoptionFault.{AdoptionFault};

    ghost from_gives = { λ fault given. given ≡ AdoptionFault.Run fault };

    fn from(fault: RunFault<'a>) -> Self {
        AdoptionFault::Run(fault)
    }
}

impl From<StoreFault> for AdoptionFault<'_> {
    fn from(fault: StoreFault) -> Self {
        AdoptionFault::Run(RunFault::from(fault))
    }
}

impl From<AllocError> for AdoptionFault<'_> {
    fn from(_error: AllocError) -> Self {
        AdoptionFault::Run(RunFault::NoMemory)
    }
}

impl<T: Drop> From<AllocFailed<T>> for AdoptionFault<'_> {
    fn from(_error: AllocFailed<T>) -> Self {
        AdoptionFault::Run(RunFault::NoMemory)
    }
}
