//! The whole lines of a record.
ghost use Rattle.std.specs.Prelude.{◌≡◌, List, ℕ, IfOk, Some};
ghost use Rattle.std.specs.Io.Buffered.{reader_remaining};
ghost use Rattle.cli_record.specs.RecordRun.{HasLeft};
ghost use Rattle.cli_record.specs.WholeLines.{IsCut};

use cli_common::{ListInput, RunFault};
use delivery_json::last_end;
use std::alloc::Global;
use std::io::{self, BufReader, Read};

/// Takes off what stands after the last LF.
fn drop_torn(bytes: &mut Vec<u8>)
    ensures { IsCut bytes.old.items bytes.new.items }
{
    match last_end(bytes.as_slice()) {
        Some(index) => bytes.truncate(index + 1),
        None => bytes.clear(),
    }
}

/// The bytes that a reader of the file of this path has left.
fn read_left<'a, D: Read + Drop>(
    alloc: Global,
    path: &'a str,
    mut reader: BufReader<D>,
) -> Result<Vec<u8>, RunFault<'a>>
    ensures { IfOk result (λ whole. (bytes : List ℕ) → reader_remaining D.remaining reader ≡ Some bytes → IsCut bytes whole.items) }
{
    let mut bytes = Vec::new(alloc);
    match reader.read_to_end(&mut bytes) {
        Ok(_) => {
            drop_torn(&mut bytes);
            Ok(bytes)
        }
        Err(error) => Err(RunFault::of_read(&error, path)),
    }
}

/// Opens a record, and reads its whole lines: a last line without its end was never delivered. A file that can't be
/// read and lack of memory are the faults.
pub fn read_whole<'a, D: Read + Drop, O>(
    alloc: Global,
    list: ListInput<'a, O>,
) -> Result<Vec<u8>, RunFault<'a>>
where
    O: FnOnce() -> io::Result<BufReader<D>>,
    requires { O.IsAlwaysCallable list.open }
    ensures { IfOk result (λ whole. (bytes : List ℕ)
        → HasLeft (O.post list.entry.open) (reader_remaining D.remaining) bytes → IsCut bytes whole.items) }
{
    let ListInput { path, open } = list;
    match open() {
        Ok(reader) => read_left(alloc, path, reader),
        Err(error) => Err(RunFault::of_read(&error, path)),
    }
}
