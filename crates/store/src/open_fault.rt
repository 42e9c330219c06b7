//! Why no store is opened.
use std::{error, fmt};

/// Why no store is opened over what is to hold its tables. A fault is printed as its code.
#[derive(Clone, Copy, Debug, PartialEq, Eq)]
pub enum OpenFault {
    /// S1: memory was refused.
    NoMemory,
    /// S2: the device or the database failed.
    Failed,
    /// S4: the tables are not the desk's, or of a version that is not known; or there is something where they are to
    /// be made.
    UnknownTables,
    /// S5: a row is kept that cannot stand.
    BadRow,
}

impl fmt::Display for OpenFault {
    ghost use Rattle.std.specs.Prelude.{Some};
    ghost use Rattle.store.specs.FaultCode.{opening_code};

    ghost output = { λ fault. Some (opening_code fault) };

    fn fmt<W: fmt::Write>(&self, f: &mut fmt::Formatter<W>) -> fmt::Result {
        f.write_str(match self {
            OpenFault::NoMemory => "S1",
            OpenFault::Failed => "S2",
            OpenFault::UnknownTables => "S4",
            OpenFault::BadRow => "S5",
        })
    }
}

impl error::Error for OpenFault {}
