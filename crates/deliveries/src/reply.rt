//! What a delivery is answered.
use points::Answer;

/// The reply to one delivery.
#[derive(Clone, Copy, Debug, PartialEq, Eq)]
pub enum Reply {
    /// The building has no such panel.
    NoPanel,
    /// A command's number is not 1 to 1,000,000,000,000, or a skip's not 1 to 1,000,000,000,001.
    BadNumber,
    /// The number lies more than 1,000 below the next one: what became of it is not kept.
    Forgotten { number: i64 },
    /// The number was accepted before with another content.
    Differs { number: i64 },
    /// The command was acted on, now or before, and this is its answer.
    Answered { number: i64, answer: Answer },
    /// The command is accepted and waits for the number `next`.
    Parked { next: u64, number: i64 },
    /// The number was given up before it came.
    Skipped { number: i64 },
    /// The number, or a skip's, lies past the window that begins at `next`.
    TooFar { next: u64, number: i64 },
    /// A skip: its numbers are acted on or given up, and `next` is the next one.
    SkipDone { next: u64 },
    /// A tick: the schedules wrote so many values.
    Ticked { writes: u64 },
    /// A tick that is not later than one before it.
    Old,
    /// A moment before 1970-01-01T00:00:00Z, or outside the local years 1970 to 2154.
    BadMoment,
    /// An import: so many rows were added and so many known before, and the schedules wrote so many values.
    Imported { added: u64, known: u64, writes: u64 },
    /// An import of which a row names no calendar of the building: the record of the first such row, where the
    /// header is record 1.
    ImportRefused { record: u64 },
}
