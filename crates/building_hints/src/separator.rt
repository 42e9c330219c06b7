//! What separates the columns of a holiday list.

/// What separates the columns, by the header.
#[derive(Clone, Copy)]
pub(crate) enum Separator {
    Comma,
    Semicolon,
    Tab,
    /// The header is another.
    Unknown,
}
