//! Where a table of a building file stands.
ghost use Rattle.std.specs.Prelude.{◌≡◌, true};
ghost use Rattle.building.specs.FaultAt.{fault_at, reported_key};

use crate::cause::Cause;
use crate::file_fault::FileFault;
use crate::key::Key;
use crate::section::Section;

/// Where a table of a building file stands.
#[derive(Clone, Copy, Debug)]
pub struct Location {
    pub section: Section,
    /// The position of the table in its section, from 1; 0 for the top table.
    pub position: usize,
    /// Whether it is an exception's table inside that table. Its keys are reported as `exception`.
    pub in_exception: bool,
}

impl Location {
    /// The top table.
    pub const TOP: Location = Location {
        section: Section::Top,
        position: 0,
        in_exception: false,
    };

    /// The exceptions of this table.
    pub fn exceptions(self) -> Location
        ensures { result ≡ record self { in_exception = true } }
    {
        Location {
            in_exception: true,
            ..self
        }
    }

    /// The fault at a key of the table.
    pub fn fault(self, key: Key, cause: Cause) -> FileFault
        ensures { result ≡ fault_at self key cause }
    {
        FileFault {
            cause,
            section: self.section,
            position: self.position,
            key: self.reported_key(key),
        }
    }

    fn reported_key(self, key: Key) -> Key
        ensures { result ≡ reported_key self.in_exception key }
    {
        match key {
            Key::Unknown => Key::Unknown,
            _ if self.in_exception => Key::Exception,
            _ => key,
        }
    }
}
