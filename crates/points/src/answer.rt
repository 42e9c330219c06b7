//! The answer to a command.
use crate::rule::Rule;

/// The answer to a command that was acted on.
#[derive(Clone, Copy, Debug, PartialEq, Eq)]
pub enum Answer {
    /// The value, or NULL, stands in its place. The present value after it, and the priority of the place
    /// that gives it: 1 to 16, or 0 for the relinquish default.
    Done { present: i64, priority: u8 },
    /// The command changed no place.
    Refused(Rule),
}
