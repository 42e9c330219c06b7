//! What a journal has of a panel's end.
use deliveries::Reply;
use points::Content;

/// One entry of a journal, in the order in which they were made.
#[derive(Clone, Copy, Debug)]
pub enum Move {
    /// A content was pressed, under the next number.
    Press { content: Content },
    /// A reply was heard. Those that end a command or a skip are enough.
    Hear { reply: Reply },
    /// What was pressed up to this number was given up.
    GiveUp { number: u64 },
}
