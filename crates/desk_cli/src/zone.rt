//! The text of the zone of a building file.

ghost use Rattle.std.specs.Prelude.{◌≡◌, IfOk, option_copied, option_map, string_bytes};
ghost use Rattle.toml.specs.Data.{get_member};
ghost use Rattle.toml.specs.View.{table_view, view};
ghost use Rattle.desk_cli.specs.ZoneText.{zone_in, zone_of, zone_of_text};

use points::text_of;
use std::alloc::{AllocError, Global};
use toml::{Table, Value};

/// The text at the key `zone` of a TOML file, if there is one. The only error is a failed allocation.
pub fn zone_text(alloc: Global, bytes: &[u8]) -> Result<Option<String>, AllocError>
    ensures { IfOk result (λ zone. option_map string_bytes zone ≡ zone_of bytes.now) }
{
    match text_of(bytes) {
        Some(text) => zone_of_text(alloc, text),
        None => Ok(None),
    }
}

/// The text at the key `zone` of a TOML text.
fn zone_of_text(alloc: Global, text: &str) -> Result<Option<String>, AllocError>
    ensures { IfOk result (λ zone. option_map string_bytes zone ≡ zone_of_text text.now) }
{
    match toml::table_from_str(alloc, text) {
        Ok(table) => owned(alloc, zone_in(&table)),
        Err(error) if error.is_memory() => Err(AllocError),
        Err(_) => Ok(None),
    }
}

/// A text of one's own.
fn owned(alloc: Global, text: Option<&str>) -> Result<Option<String>, AllocError>
    ensures { IfOk result (λ copy. option_map string_bytes copy ≡ option_map (λ s. s.now) text.entry) }
{
    match text {
        Some(text) => Ok(Some(String::from_str(alloc, text)?)),
        None => Ok(None),
    }
}

/// The text at the key `zone` of a table.
fn zone_in(table: &Table) -> Option<&str>
    ensures { option_map (λ s. s.now) result ≡ zone_in (table_view table.now) }
{
    value_at(table, "zone")?.as_str()
}

/// The value at a key of a table.
fn value_at<'a>(table: &'a Table, key: &str) -> Option<&'a Value>
    ensures { option_map (λ v. view v.now) result ≡ get_member key.now (table_view table.now) }
{
    table.get(key)
}
