//! A commandable point of the building.
use crate::kind::Kind;
use crate::name::Name;

/// A point with a priority array.
#[derive(Drop)]
pub struct Point {
    pub name: Name,
    pub kind: Kind,
    /// The value that the point has while its priority array is empty (19.2): a value of its kind.
    pub relinquish_default: i64,
}
