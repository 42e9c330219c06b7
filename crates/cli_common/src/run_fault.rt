//! Why a run stopped.

ghost use Rattle.std.specs.Prelude.{◌≡◌};

use crate::Status;
use crate::fault_line::print_fault;
use building::{BuildingFault, FileFault};
use building_holidays::ImportFault;
use std::alloc::{AllocError, Global};
use std::io::Write;
use std::{fmt, io};
use store::{OpenFault, StoreFault};

/// Why a run of the program stopped. Its text is the line of the fault end, without the line end.
#[derive(Clone, Copy)]
pub enum RunFault<'a> {
    /// The file of this path can't be read.
    CannotRead { path: &'a str },
    /// The building file is at fault.
    Building(FileFault),
    /// The line of this number, counted from 1, is no delivery.
    NotDelivery { line: u64 },
    /// The holiday list is at fault.
    Holidays(ImportFault),
    /// The day of a report is none.
    NotDay,
    /// The text is no moment.
    NotMoment { text: &'a str },
    /// The building's clock never shows the local time of this text, or not with its offset.
    NotShown { text: &'a str },
    /// The building has no point of this name.
    NoPoint { name: &'a str },
    /// There is no database at this path.
    NoDatabase { path: &'a str },
    /// Nothing can listen on this address.
    CannotListen { address: &'a str },
    /// The record of this path can't be written.
    CannotWrite { path: &'a str },
    /// The last line of the record of this path is no delivery.
    NotARecord { path: &'a str },
    /// The output failed.
    OutputFailed,
    /// Memory was refused.
    NoMemory,
    /// The store failed.
    Store(StoreFault),
    /// The database has other tables than the desk's, or a version of them that is not known.
    UnknownTables,
}

impl<'a> RunFault<'a> {
    /// What the program ends with.
    pub fn status(&self) -> Status
        ensures { (result ≡ Status.Done) → ⊥ }
    {
        match self {
            RunFault::NoMemory
            | RunFault::Store(_)
            | RunFault::UnknownTables
            | RunFault::CannotWrite { .. } => Status::Store,
            _ => Status::Fault,
        }
    }

    /// The fault that is reported where the output is flushed after this one: of two ends the one that lost
    /// output.
    pub fn after(self, flushed: io::Result<()>) -> RunFault<'a> {
        match flushed {
            Ok(()) => self,
            Err(_) => RunFault::OutputFailed,
        }
    }

    /// Prints the fault as one line (`print_fault`).
    pub fn print<F: Write>(&self, alloc: Global, out: &mut F) {
        print_fault(alloc, self, out);
    }

    /// Why a file of this path is not read.
    pub fn of_read(error: &io::Error, path: &'a str) -> RunFault<'a> {
        match error.kind() {
            io::ErrorKind::OutOfMemory => RunFault::NoMemory,
            _ => RunFault::CannotRead { path },
        }
    }
}

impl fmt::Display for RunFault<'_> {
    ghost use Rattle.std.specs.Prelude.{Some};
    ghost use Rattle.cli_common.specs.RunFault.{line_of};

    ghost output = { λ fault. Some (line_of fault) };

    fn fmt<W: fmt::Write>(&self, f: &mut fmt::Formatter<W>) -> fmt::Result {
        match self {
            RunFault::CannotRead { path } => write!(f, "desk: cannot read {path}"),
            RunFault::Building(fault) => write!(f, "desk: {fault}"),
            RunFault::NotDelivery { line } => write!(f, "desk: line {line} is not a delivery"),
            RunFault::Holidays(fault) => write!(f, "desk: {fault}"),
            RunFault::NotDay => f.write_str("desk: not a day"),
            RunFault::NotMoment { text } => write!(f, "desk: {text} is not a moment"),
            RunFault::NotShown { text } => {
                write!(f, "desk: the building's clock does not show {text}")
            }
            RunFault::NoPoint { name } => write!(f, "desk: no point {name}"),
            RunFault::NoDatabase { path } => write!(f, "desk: no database at {path}"),
            RunFault::CannotListen { address } => write!(f, "desk: cannot listen on {address}"),
            RunFault::CannotWrite { path } => write!(f, "desk: cannot write {path}"),
            RunFault::NotARecord { path } => {
                write!(f, "desk: the last line of {path} is not a delivery")
            }
            RunFault::OutputFailed => f.write_str("desk: cannot write"),
            RunFault::NoMemory => f.write_str("desk: out of memory"),
            RunFault::Store(fault) => write!(f, "desk: store fault {fault}"),
            RunFault::UnknownTables => f.write_str("desk: store fault S4"),
        }
    }
}

impl From<AllocError> for RunFault<'_> {
    ghost use Rattle.cli_common.specs.declared.run_fault.RunFault.{RunFault};

    ghost from_gives = { λ _ fault. fault ≡ RunFault.NoMemory };

    fn from(_error: AllocError) -> Self {
        RunFault::NoMemory
    }
}

impl From<BuildingFault> for RunFault<'_> {
    ghost use Rattle.cli_common.specs.RunFault.{fault_of_building};

    ghost from_gives = { λ fault given. given ≡ fault_of_building fault };

    fn from(fault: BuildingFault) -> Self {
        match fault {
            BuildingFault::File(fault) => RunFault::Building(fault),
            BuildingFault::NoMemory => RunFault::NoMemory,
        }
    }
}

impl From<StoreFault> for RunFault<'_> {
    ghost use Rattle.cli_common.specs.RunFault.{fault_of_store};

    ghost from_gives = { λ fault given. given ≡ fault_of_store fault };

    fn from(fault: StoreFault) -> Self {
        match fault {
            StoreFault::NoMemory => RunFault::NoMemory,
            _ => RunFault::Store(fault),
        }
    }
}

impl From<OpenFault> for RunFault<'_> {
    ghost use Rattle.cli_common.specs.RunFault.{fault_of_opening};

    ghost from_gives = { λ fault given. given ≡ fault_of_opening fault };

    fn from(fault: OpenFault) -> Self {
        match fault {
            OpenFault::NoMemory => RunFault::NoMemory,
            OpenFault::Failed => RunFault::Store(StoreFault::Failed),
            OpenFault::UnknownTables => RunFault::UnknownTables,
            OpenFault::BadRow => RunFault::Store(StoreFault::BadRow),
        }
    }
}
