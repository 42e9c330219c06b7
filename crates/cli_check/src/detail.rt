//! How much is said of a building file at fault.

/// How much is said of a building file at fault.
#[derive(Clone, Copy, Debug, PartialEq, Eq)]
pub enum Detail {
    /// The fault's line.
    Line,
    /// The fault's line, and the line that explains it.
    Explained,
}
