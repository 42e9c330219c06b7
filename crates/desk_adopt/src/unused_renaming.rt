//! A renaming that counts nowhere.
use crate::renaming::Renaming;
use std::fmt;

/// Why a renaming counts nowhere.
#[derive(Clone, Copy, Debug, PartialEq, Eq)]
pub enum UnusedReason {
    /// Its old name stands nowhere in the tables.
    NotInTables,
    /// Its old name stands in sections of the tables alone in which the building lacks the new one.
    OtherSection,
}

/// A renaming that counts nowhere. It is printed as a line, without the line end.
#[derive(Clone, Copy, Debug)]
pub struct UnusedRenaming {
    pub renaming: Renaming,
    pub reason: UnusedReason,
}

impl fmt::Display for UnusedRenaming {
    ghost use Rattle.std.specs.Prelude.{Some};
    ghost use Rattle.desk_adopt.specs.NoteLine.{unused_line_of};

    ghost output = { λ unused. Some (unused_line_of unused) };

    fn fmt<W: fmt::Write>(&self, f: &mut fmt::Formatter<W>) -> fmt::Result {
        let Renaming { old, new } = &self.renaming;
        match self.reason {
            UnusedReason::NotInTables => write!(f, "{old}={new}: {old} is not in the tables"),
            UnusedReason::OtherSection => write!(f, "{old}={new}: {new} is in another section"),
        }
    }
}
