//! What a journal has.
use deliveries::Reply;
use points::{Content, Name};

/// One entry of a journal.
#[derive(Clone, Copy, Debug)]
pub enum Entry {
    /// The first one: whose journal it is, and the first number that this life of the panel gives.
    Began { panel: Name, first: u64 },
    /// A content was pressed, under this number.
    Pressed { number: u64, content: Content },
    /// A reply was heard.
    Heard { reply: Reply },
    /// What was pressed up to this number was given up.
    GaveUp { number: u64 },
}
