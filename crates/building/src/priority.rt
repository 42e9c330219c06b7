//! Priorities of a building file.

ghost use Rattle.std.specs.Prelude.{◌≡◌, IfOk, IsTrue};
ghost use Rattle.toml.specs.View.{view};
ghost use Rattle.building.specs.Priority.{event_priority_in, write_priority_in};
ghost use Rattle.points.specs.Priority.{is_priority, is_write_priority};

use crate::cause::Cause;
use crate::fields::Fields;
use crate::file_fault::FileFault;
use crate::key::Key;
use points::{event_priority_of, write_priority_of};
use toml::Value;

/// A priority at which something is written: 1 to 16, and not 6, which is for minimum on and off times
/// alone (19.2). Another number is B10.
pub(crate) fn write_priority(fields: &Fields<'_>, key: Key, value: &Value) -> Result<u8, FileFault>
    ensures answers { result ≡ write_priority_in fields.now.location key (view value.now) }
    ensures sound { IfOk result (λ n. IsTrue (is_write_priority n)) }
{
    write_priority_of(fields.integer_in(key, value)?).ok_or(fields.fault(key, Cause::NotAPriority))
}

/// The EventPriority of an exception (12.24): 1 to 16. Another number is B10.
pub(crate) fn event_priority(fields: &Fields<'_>, key: Key, value: &Value) -> Result<u8, FileFault>
    ensures answers { result ≡ event_priority_in fields.now.location key (view value.now) }
    ensures sound { IfOk result (λ n. IsTrue (is_priority n)) }
{
    event_priority_of(fields.integer_in(key, value)?).ok_or(fields.fault(key, Cause::NotAPriority))
}
