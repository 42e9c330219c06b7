//! Entry texts of a building file.

ghost use Rattle.std.specs.Prelude.{◌≡◌};
ghost use Rattle.toml.specs.View.{view};
ghost use Rattle.building.specs.EntryText.{entry_in, entry_of};

use crate::cause::Cause;
use crate::fields::Fields;
use crate::file_fault::FileFault;
use crate::key::Key;
use dates::Entry;
use toml::Value;

/// The entry of a text (B4, B8).
pub(crate) fn entry_in(fields: &Fields<'_>, key: Key, value: &Value) -> Result<Entry, FileFault>
    ensures { result ≡ entry_in fields.now.location key (view value.now) }
{
    entry_of(fields, key, fields.text_in(key, value)?)
}

/// The entry that a text spells (B8).
fn entry_of(fields: &Fields<'_>, key: Key, text: &str) -> Result<Entry, FileFault>
    ensures { result ≡ entry_of fields.now.location key text.now }
{
    match Entry::read(text) {
        Ok(entry) => Ok(entry),
        Err(fault) => Err(fields.fault(key, Cause::NotAnEntry(fault))),
    }
}
