//! A kept command under its number.
use crate::command_row::CommandRow;

/// The last number of a command; numbers begin at 1. A skip's `upto`, and a panel's next number, may be one more.
pub const LAST_NUMBER: u64 = 1_000_000_000_000;

/// A panel's row with the number that it stands under: 1 to `LAST_NUMBER`.
#[derive(Clone, Copy, Debug)]
pub struct NumberedRow {
    pub number: u64,
    pub row: CommandRow,
}
