//! What a point presents.
ghost use Rattle.std.specs.Prelude.{◌≡◌, IfOk, string_bytes};
ghost use Rattle.desk_views.specs.Views.{present_text};

use points::Name;
use std::alloc::{AllocError, Global};

/// A point's name, its present value, and the priority of the place that gives it, or 0 for the relinquish default.
pub fn present_text(
    alloc: Global,
    point: &Name,
    present: i64,
    priority: u8,
) -> Result<String, AllocError>
    ensures { IfOk result (λ text. string_bytes text ≡ present_text point.now (present, priority)) }
{
    format!(in alloc; "\"point\":\"{point}\",\"present\":{present},\"priority\":{priority}")
}
