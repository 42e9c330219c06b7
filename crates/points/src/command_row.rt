//! What is kept of a panel's command.
use crate::answer::Answer;
use crate::content::Content;

/// Where a kept command stands.
#[derive(Clone, Copy, Debug)]
pub enum CommandState {
    /// It came before a lower number of its panel, and waits for it.
    Parked,
    /// It was acted on, and this was its answer.
    Answered(Answer),
}

/// A command that was accepted from a panel, as it is kept under its number.
#[derive(Clone, Copy, Debug)]
pub struct CommandRow {
    pub content: Content,
    pub state: CommandState,
}
