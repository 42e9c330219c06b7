//! Why a desk is not opened beside a record, or a run over one stopped.
ghost use Rattle.std.specs.Prelude.{◌≡◌, None, false};
ghost use Rattle.cli_record.specs.Beside.{tells_no_database, told_by};

use crate::difference::Difference;
use cli_common::{RunFault, Status, print_fault};
use std::alloc::Global;
use std::fmt;
use std::io::Write;
use store::StoreFault;

/// What helps where the database is older than its record, or is not there.
const REBUILD: &str = "desk rebuild makes it from the record";

/// Why a run over a database, and the record that is kept beside it, stopped. Its text is the line of the fault end,
/// without the line end.
#[derive(Clone, Copy)]
pub enum BesideFault<'a> {
    /// As any run stops.
    Run(RunFault<'a>),
    /// The line of this number, counted from 1, of the record of this path is no delivery.
    NotDelivery {
        path: &'a str,
        line: u64,
    },
    /// There is no database for the record of this path, which has deliveries or stands on a base.
    NoDatabase {
        path: &'a str,
        database: &'a str,
    },
    /// The record of this path is not that of the database: where they differ first.
    OtherRecord {
        path: &'a str,
        database: &'a str,
        difference: Difference,
    },
}

impl<'a> BesideFault<'a> {
    /// What ends a run whose record, of this path, is not replayed.
    pub(crate) fn of_replay(fault: RunFault<'a>, path: &'a str) -> BesideFault<'a>
        ensures difference { told_by result ≡ None }
        ensures found { tells_no_database result ≡ false }
    {
        match fault {
            RunFault::NotDelivery { line } => BesideFault::NotDelivery { path, line },
            fault => BesideFault::Run(fault),
        }
    }

    /// What the program ends with.
    pub fn status(&self) -> Status
        ensures { (result ≡ Status.Done) → ⊥ }
    {
        match self {
            BesideFault::Run(fault) => fault.status(),
            _ => Status::Fault,
        }
    }

    /// Prints the fault as one line.
    pub fn print<F: Write>(&self, alloc: Global, out: &mut F) {
        print_fault(alloc, self, out);
    }
}

impl fmt::Display for BesideFault<'_> {
    fn fmt<W: fmt::Write>(&self, f: &mut fmt::Formatter<W>) -> fmt::Result {
        match self {
            BesideFault::Run(fault) => write!(f, "{fault}"),
            BesideFault::NotDelivery { path, line } => {
                write!(f, "desk: line {line} of {path} is not a delivery")
            }
            BesideFault::NoDatabase { path, database } => {
                write!(
                    f,
                    "desk: {path} is not the record of {database}: no database is there; {REBUILD}"
                )
            }
            BesideFault::OtherRecord {
                path,
                database,
                difference,
            } => {
                write!(
                    f,
                    "desk: {path} is not the record of {database}: {difference}"
                )?;
                if difference.shows_older() {
                    write!(f, "; {REBUILD}")?;
                }
                Ok(())
            }
        }
    }
}

impl<'a> From<RunFault<'a>> for BesideFault<'a> {
    ghost use Rattle.std.specs.Prelude.{◌≡◌, None, false};
    ghost use Rattle.cli_record.specs.Beside.{tells_no_database, told_by};

    ghost from_gives = { λ _ given. (told_by given ≡ None) × (tells_no_database given ≡ false) };

    fn from(fault: RunFault<'a>) -> Self {
        BesideFault::Run(fault)
    }
}

impl From<StoreFault> for BesideFault<'_> {
    ghost use Rattle.std.specs.Prelude.{◌≡◌, None, false};
    ghost use Rattle.cli_record.specs.Beside.{tells_no_database, told_by};

    ghost from_gives = { λ _ given. (told_by given ≡ None) × (tells_no_database given ≡ false) };

    fn from(fault: StoreFault) -> Self {
        BesideFault::Run(RunFault::from(fault))
    }
}
