//! Where two runs of rows begin to differ in what was sent.
ghost use Rattle.std.specs.Prelude.{◌≡◌};
ghost use Rattle.cli_record.specs.SentRuns.{first_unlike, is_same_sent};

use points::NumberedRow;

/// Whether two rows have the same content under one number.
fn is_same_sent(row: &NumberedRow, other: &NumberedRow) -> bool
    ensures { result ≡ is_same_sent row.now other.now }
{
    row.number == other.number && row.row.content.is_same_as(&other.row.content)
}

/// The least number under which one of two rising runs has a content that the other has not.
pub fn first_unlike(held: &[NumberedRow], recorded: &[NumberedRow]) -> Option<u64>
    ensures { result ≡ first_unlike held.now recorded.now }
{
    for (index, row) in held.iter().enumerate() {
        match recorded.get(index) {
            None => return Some(row.number),
            Some(other) => {
                if !is_same_sent(row, other) {
                    return Some(row.number.min(other.number));
                }
            }
        }
    }
    match recorded.get(held.len()) {
        None => None,
        Some(other) => Some(other.number),
    }
}
