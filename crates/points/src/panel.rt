//! A wall panel and its rights.
use crate::listing::Listing;
use crate::name::Name;
use crate::name_index::NameIndex;

/// A panel: what it may write, and with which priorities (this profile's choice).
#[derive(Drop)]
pub struct Panel {
    pub name: Name,
    /// The names of the points that are granted to it, found by an index.
    pub points: NameIndex,
    /// The priorities that are granted to it, each 1 to 16 and not 6.
    pub priorities: Listing<u8>,
}
