//! How far a record was followed.
ghost use Rattle.std.specs.Prelude.{◌≡◌, IfOk, string_bytes};
ghost use Rattle.desk_views.specs.Views.{record_view};

use crate::numbers::number_text;
use std::alloc::{AllocError, Global};

/// How far a record was followed: over how many deliveries, and to which tick, if there was one.
pub fn record_view(alloc: Global, deliveries: u64, last: Option<i64>) -> Result<String, AllocError>
    ensures { IfOk result (λ text. string_bytes text ≡ record_view deliveries last) }
{
    let last = number_text(alloc, last)?;
    format!(in alloc; "{{\"answer\":\"record\",\"deliveries\":{deliveries},\"last_tick\":{last}}}")
}
