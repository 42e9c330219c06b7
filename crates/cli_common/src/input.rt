//! The files that a run of the program reads.

use std::io;

/// A file that a run of the program reads: the path as it was given, and the reader that opening it
/// gave, or why it can't be opened.
#[derive(Drop)]
pub struct Input<'a, R> {
    /// The path as it was given.
    pub path: &'a str,
    /// The reader, from the file's first byte on.
    pub reader: io::Result<R>,
}

/// A file that a run of the program opens when its turn comes: the path as it was given, and the call that
/// opens it.
#[derive(Drop)]
pub struct ListInput<'a, O> {
    /// The path as it was given.
    pub path: &'a str,
    /// Opens the file at its first byte.
    pub open: O,
}
