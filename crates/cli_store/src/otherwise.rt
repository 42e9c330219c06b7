//! The line of a start whose building file makes other values of the record than the database has.
ghost use Rattle.std.specs.Prelude.{◌≡◌, IfOk, string_bytes};
ghost use Rattle.cli_store.specs.Otherwise.{Tells, otherwise_line};

use cli_common::print_text;
use cli_record::Difference;
use std::alloc::{AllocError, Global};
use std::io::Write;

/// The line of the first place of a point that has another value.
fn otherwise_line(alloc: Global, difference: &Difference) -> Result<String, AllocError>
    ensures { IfOk result (λ line. string_bytes line ≡ otherwise_line difference.now) }
{
    format!(in alloc; "desk: with this building file the record makes other values: {difference}\n")
}

/// Prints it, if there is one. The run goes on, also where memory for it is refused or the output fails.
pub(crate) fn tell_otherwise<F: Write>(alloc: Global, otherwise: Option<Difference>, fault: &mut F)
    ensures { Tells otherwise (F.contents fault.old) (F.contents fault.new) }
{
    let Some(difference) = otherwise else {
        return;
    };
    if let Ok(line) = otherwise_line(alloc, &difference) {
        let _printed = print_text(fault, line.as_bytes());
    }
}
