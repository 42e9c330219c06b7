//! A command's content under its number.
use points::Content;

/// A command's content under its number.
#[derive(Clone, Copy)]
pub struct NumberedContent {
    pub number: u64,
    pub content: Content,
}
