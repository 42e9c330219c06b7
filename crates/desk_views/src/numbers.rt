//! Numbers that may be none.
ghost use Rattle.std.specs.Prelude.{◌≡◌, IfOk, string_bytes};
ghost use Rattle.desk_views.specs.Views.{number_text};

use std::alloc::{AllocError, Global};

/// A value, or a moment in hundredths of a second since 1970-01-01T00:00:00Z; `null` for none.
pub fn number_text(alloc: Global, number: Option<i64>) -> Result<String, AllocError>
    ensures { IfOk result (λ text. string_bytes text ≡ number_text number) }
{
    match number {
        Some(number) => number.to_string(alloc),
        None => String::from_str(alloc, "null"),
    }
}
