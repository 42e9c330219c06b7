//! Why a run ended early.
use panel::PressFault;
use std::alloc::{AllocError, AllocFailed};
use std::{fmt, io};

/// Why a run ended early.
#[derive(Debug, Drop)]
pub enum Fault {
    /// The words ask nothing.
    Words,
    /// The panel's name is malformed.
    Name,
    /// A line of the standard input is no command.
    Line(u64),
    /// A line of the journal is no entry, or not in its place.
    Journal(u64),
    /// The journal is another panel's.
    OtherPanel,
    /// Another run has the journal.
    InUse,
    /// The desk's building has no such panel.
    NoPanel,
    /// The last number was used.
    NoNumberLeft,
    /// Memory was refused.
    NoMemory,
    /// A file, the standard input or the output failed.
    Io(io::Error),
}

impl Fault {
    /// The status that the program ends with: 1 a fault of what it was given, 2 of its words, 3 of the system.
    pub fn code(&self) -> u8 {
        match self {
            Fault::Words | Fault::Name => 2,
            Fault::NoMemory | Fault::Io(_) => 3,
            _ => 1,
        }
    }
}

impl From<io::Error> for Fault {
    fn from(error: io::Error) -> Fault {
        Fault::Io(error)
    }
}

impl From<AllocError> for Fault {
    fn from(_refused: AllocError) -> Fault {
        Fault::NoMemory
    }
}

impl<T: Drop> From<AllocFailed<T>> for Fault {
    fn from(_refused: AllocFailed<T>) -> Fault {
        Fault::NoMemory
    }
}

impl From<PressFault> for Fault {
    fn from(fault: PressFault) -> Fault {
        match fault {
            PressFault::NoMemory | PressFault::Full => Fault::NoMemory,
            PressFault::NoNumberLeft => Fault::NoNumberLeft,
        }
    }
}

impl fmt::Display for Fault {
    fn fmt<W: fmt::Write>(&self, f: &mut fmt::Formatter<W>) -> fmt::Result {
        match self {
            Fault::Words => f.write_str("the words ask nothing"),
            Fault::Name => f.write_str("the panel's name is malformed"),
            Fault::Line(number) => write!(f, "line {number} of the input is no command"),
            Fault::Journal(number) => write!(
                f,
                "line {number} of the journal is no entry in its place"
            ),
            Fault::OtherPanel => f.write_str("the journal is another panel's"),
            Fault::InUse => f.write_str("the journal is in use"),
            Fault::NoPanel => f.write_str("the desk has no such panel"),
            Fault::NoNumberLeft => f.write_str("the last number was used"),
            Fault::NoMemory => f.write_str("out of memory"),
            Fault::Io(error) => write!(f, "{error}"),
        }
    }
}
