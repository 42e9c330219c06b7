//! What is wrong in a holiday list, and where.
ghost use Rattle.std.specs.Prelude.{◌≡◌};
ghost use Rattle.building_holidays.specs.ImportFaults.{fault};

use std::error::Error;
use std::fmt;

/// What is wrong in a record of a holiday list. It is printed as its number, I1 to I5.
#[derive(Clone, Copy, Debug)]
pub enum ImportCause {
    /// I1: a record that is not UTF-8, or has another number of fields than the header.
    NotCsv,
    /// I2: the header is not `calendar,entry`.
    OtherHeader,
    /// I3: no calendar of the building has the name.
    UnknownCalendar,
    /// I4: a text that spells no entry.
    NotAnEntry,
    /// I5: a row beyond the 2,000 that a list has at most (this profile's limit).
    TooManyRows,
}

impl ImportCause {
    /// The fault of a record, counted from 1 for the header.
    pub fn at(self, number: u64) -> ImportFault
        ensures { result ≡ fault self number }
    {
        ImportFault {
            cause: self,
            record: number,
        }
    }
}

impl fmt::Display for ImportCause {
    ghost use Rattle.std.specs.Prelude.{Some};
    ghost use Rattle.building_holidays.specs.ImportTexts.{cause_text};

    ghost output = { λ cause. Some (cause_text cause) };

    fn fmt<W: fmt::Write>(&self, f: &mut fmt::Formatter<W>) -> fmt::Result {
        f.write_str(match self {
            ImportCause::NotCsv => "I1",
            ImportCause::OtherHeader => "I2",
            ImportCause::UnknownCalendar => "I3",
            ImportCause::NotAnEntry => "I4",
            ImportCause::TooManyRows => "I5",
        })
    }
}

/// What is wrong in a holiday list, and in which record. It is printed as `I3 record 3`.
#[derive(Clone, Copy, Debug)]
pub struct ImportFault {
    pub cause: ImportCause,
    /// The number of the record, from 1 for the header. Empty lines are no records.
    pub record: u64,
}

impl fmt::Display for ImportFault {
    ghost use Rattle.std.specs.Prelude.{Some};
    ghost use Rattle.building_holidays.specs.ImportTexts.{fault_line};

    ghost output = { λ fault. Some (fault_line fault) };

    fn fmt<W: fmt::Write>(&self, f: &mut fmt::Formatter<W>) -> fmt::Result {
        let ImportFault { cause, record } = self;
        write!(f, "{cause} record {record}")
    }
}

impl Error for ImportFault {}
