//! The lines of a record, read one by one.
ghost use Rattle.std.specs.Prelude.{◌≡◌, ◌∷◌, ◌++◌, List, [], ℕ, Bool, IfOk, OnOk, Some, true, false};
ghost use Rattle.std.specs.Io.Buffered.{reader_remaining};
ghost use Rattle.cli_record.specs.Replayed.{CutsEnd, TakesWhole};

use cli_common::RunFault;
use std::io::{BufRead, BufReader, Read};

/// Takes the LF off the end of a line, if it has one.
fn cut_end(line: &mut Vec<u8>) -> bool
    ensures { CutsEnd line.old.items result line.new.items }
{
    let Some((b'\n', whole)) = line.split_last() else {
        return false;
    };
    let end = whole.len();
    line.truncate(end);
    true
}

/// Reads the next whole line of the record of this path, without its end (LF). False where none is left: what stands
/// after the last line end was never delivered.
pub(crate) fn read_whole_line<'a, D: Read + Drop>(
    path: &'a str,
    reader: &mut BufReader<D>,
    line: &mut Vec<u8>,
) -> Result<bool, RunFault<'a>>
    ensures { IfOk result (λ is_whole. (bytes : List ℕ) → reader_remaining D.remaining reader.old ≡ Some bytes
        → TakesWhole bytes is_whole line.new.items (reader_remaining D.remaining reader.new)) }
{
    line.clear();
    match reader.read_until(b'\n', line) {
        Ok(_) => Ok(cut_end(line)),
        Err(error) => Err(RunFault::of_read(&error, path)),
    }
}
