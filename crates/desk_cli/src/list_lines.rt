//! The lines of a list.

ghost use Rattle.std.specs.Prelude.{◌≡◌, List, ℕ, [], IfOk, Some, true, false};
ghost use Rattle.std.specs.Io.BufRead.{strip_last};
ghost use Rattle.std.specs.Io.Buffered.{reader_remaining};
ghost use Rattle.desk_cli.specs.ListLines.{TakesLine};
ghost use Rattle.desk_cli.specs.Replay.{is_empty_line};

use cli_common::RunFault;
use memchr::memchr;
use std::alloc::AllocError;
use std::io::{BufRead, BufReader, Read};

/// Reads the next line of the file of this path into `line`, without its LF. False where there is none.
pub(crate) fn read_line<'a, D: Read + Drop>(
    path: &'a str,
    reader: &mut BufReader<D>,
    line: &mut Vec<u8>,
) -> Result<bool, RunFault<'a>>
    ensures { IfOk result (λ is_line. (bytes : List ℕ) → reader_remaining D.remaining reader.old ≡ Some bytes
        → TakesLine bytes is_line line.new.items (reader_remaining D.remaining reader.new)) }
{
    line.clear();
    if take_whole_line(reader, line)? {
        return Ok(true);
    }
    match reader.read_until(b'\n', line) {
        Ok(0) => Ok(false),
        Ok(_) => {
            drop_end(line);
            Ok(true)
        }
        Err(error) => Err(RunFault::of_read(&error, path)),
    }
}

/// Takes the next line, without its LF, of what the reader has at hand. False where no whole line is at hand: nothing is
/// taken then.
fn take_whole_line<D: Read + Drop>(
    reader: &mut BufReader<D>,
    line: &mut Vec<u8>,
) -> Result<bool, AllocError>
    requires empty { line.old.items ≡ [] }
    ensures taken { IfOk result (λ is_whole. (bytes : List ℕ) → is_whole ≡ true
        → reader_remaining D.remaining reader.old ≡ Some bytes
        → TakesLine bytes true line.new.items (reader_remaining D.remaining reader.new)) }
    ensures none { IfOk result (λ is_whole. is_whole ≡ false → line.new.items ≡ []) }
    ensures same { IfOk result (λ is_whole. is_whole ≡ false
        → reader_remaining D.remaining reader.new ≡ reader_remaining D.remaining reader.old) }
{
    let Some(end) = memchr(b'\n', reader.buffer()) else {
        return Ok(false);
    };
    line.extend_from_slice(&reader.buffer()[..end])?;
    reader.consume(end + 1);
    Ok(true)
}

/// Takes the LF off the end of a line.
fn drop_end(line: &mut Vec<u8>)
    ensures { line.new.items ≡ strip_last 10 line.old.items }
{
    if !line.is_empty() && line[line.len() - 1] == b'\n' {
        let end = line.len() - 1;
        line.truncate(end);
    }
}

/// Whether nothing stands in the line, or a CR alone.
pub(crate) fn is_empty(line: &[u8]) -> bool
    ensures { result ≡ is_empty_line line.now }
{
    matches!(line, b"" | b"\r")
}
