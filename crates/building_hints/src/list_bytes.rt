//! The bytes of a holiday list.
ghost use Rattle.std.specs.Prelude.{◌≡◌, List, ℕ, IfOk, Some};
ghost use Rattle.cli_common.specs.Input.{bytes_of};

use cli_common::{Input, RunFault};
use std::alloc::Global;
use std::io::Read;

/// The bytes of a file.
pub(crate) fn read_all<'a, L: Read + Drop>(
    alloc: Global,
    list: Input<'a, L>,
) -> Result<Vec<u8>, RunFault<'a>>
    ensures { IfOk result (λ it. (bytes : List ℕ)
        → bytes_of L.remaining list.entry.reader ≡ Some bytes → it.items ≡ bytes) }
{
    let path = list.path;
    let mut bytes = Vec::new(alloc);
    match list.reader {
        Ok(mut reader) => match reader.read_to_end(&mut bytes) {
            Ok(_) => Ok(bytes),
            Err(error) => Err(RunFault::of_read(&error, path)),
        },
        Err(error) => Err(RunFault::of_read(&error, path)),
    }
}
