//! What is seen of a panel.
use points::{CommandRow, Listing, NumberedRow};

/// What is kept of a panel, as far as one command or skip needs it.
#[derive(Drop)]
pub struct PanelView {
    /// The least number that is not acted on yet and not given up: 1 or more.
    pub next: u64,
    /// The row of the number that a command has, if one is kept; none for a skip.
    pub asked: Option<CommandRow>,
    /// The rows that can be acted on now, by rising number, at most 64. For a command at `next` those that
    /// follow it without gap; for a skip with an `upto` from `next` + 1 to `next` + 64 those from `next` up
    /// to `upto`, and those that follow there without gap; else none.
    pub run: Listing<NumberedRow>,
}
