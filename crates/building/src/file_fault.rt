//! A fault of a building file.

use crate::cause::Cause;
use crate::key::Key;
use crate::section::Section;
use std::error::Error;
use std::fmt;

/// What is wrong in a building file, and where. It is printed as one line, as `B7 panel 2 points`.
#[derive(Clone, Copy, Debug)]
pub struct FileFault {
    pub cause: Cause,
    pub section: Section,
    /// The position of the table in its section, from 1; 0 in the top table.
    pub position: usize,
    pub key: Key,
}

impl fmt::Display for FileFault {
    ghost use Rattle.std.specs.Prelude.{Some};
    ghost use Rattle.building.specs.FaultLine.{fault_line};

    ghost output = { λ fault. Some (fault_line fault) };

    fn fmt<W: fmt::Write>(&self, f: &mut fmt::Formatter<W>) -> fmt::Result {
        let FileFault {
            cause,
            section,
            position,
            key,
        } = self;
        write!(f, "{cause} {section} {position} {key}")
    }
}

impl Error for FileFault {}
