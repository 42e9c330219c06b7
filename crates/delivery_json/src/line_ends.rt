//! Where the lines of bytes end.
ghost use Rattle.delivery_json.specs.LineEnds.{IsLastEnd};

/// The index of the last line end (LF) of some bytes; `None` where they have none.
pub fn last_end(bytes: &[u8]) -> Option<usize>
    ensures { IsLastEnd result bytes.now }
{
    let mut last = None;
    for index in 0..bytes.len() {
        if bytes[index] == b'\n' {
            last = Some(index);
        }
    }
    last
}
