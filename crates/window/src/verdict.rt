//! What becomes of a command or a skip.
use points::CommandState;

/// What becomes of a command, or of a skip.
#[derive(Clone, Copy)]
pub enum Verdict {
    /// It is acted on now.
    Applies,
    /// It is accepted, and waits for a lower number.
    Parked,
    /// It was accepted before with this content: what is kept of it.
    Repeat(CommandState),
    /// It was given up before it came.
    Skipped,
    /// It was accepted before with another content.
    Differs,
    /// It lies past the window.
    TooFar,
    /// A skip: the numbers below it are acted on or given up.
    SkipDone,
    /// It lies so far below the next number that it isn't remembered what became of it.
    Forgotten,
}
