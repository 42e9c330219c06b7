//! What one commit changes.
ghost use Rattle.std.specs.Prelude.{◌≡◌, [], None};

use dates::Entry;
use points::{CommandRow, Name};
use std::alloc::Global;

/// The next number of a panel.
#[derive(Clone, Copy)]
pub struct NextNumber {
    pub panel: Name,
    /// 1 to 1,000,000,000,001.
    pub next: u64,
}

/// A row under a number of a panel.
#[derive(Clone, Copy)]
pub struct KeptRow {
    pub panel: Name,
    /// 1 to 1,000,000,000,000.
    pub number: u64,
    pub row: CommandRow,
}

/// Of a panel the rows below a number.
#[derive(Clone, Copy)]
pub struct RowsBelow {
    pub panel: Name,
    pub number: u64,
}

/// A value in a place of a point's priority array.
#[derive(Clone, Copy)]
pub struct PlaceValue {
    pub point: Name,
    /// 1 to 16.
    pub priority: u8,
    /// The value; `None` is NULL.
    pub value: Option<i64>,
}

/// What a schedule shows.
#[derive(Clone, Copy)]
pub struct ShownValue {
    pub schedule: Name,
    /// A value or NULL; `None` where the schedule is quiet.
    pub shown: Option<Option<i64>>,
}

/// An entry that is imported into a calendar.
#[derive(Clone, Copy)]
pub struct ImportedEntry {
    pub calendar: Name,
    pub entry: Entry,
}

/// What one commit changes: lists of what is put into the tables, in this order. Of two items of one list
/// with the same key the later counts.
#[derive(Drop)]
pub struct Change {
    pub nexts: Vec<NextNumber>,
    pub rows: Vec<KeptRow>,
    /// The rows that go, after `rows` are put.
    pub dropped: Vec<RowsBelow>,
    pub places: Vec<PlaceValue>,
    pub shown: Vec<ShownValue>,
    pub imported: Vec<ImportedEntry>,
    /// The moment of the last tick, where it changes.
    pub last_tick: Option<i64>,
}

impl Change {
    /// A change of nothing.
    pub fn new(alloc: Global) -> Self
        ensures nexts { result.nexts.items ≡ [] }
        ensures rows { result.rows.items ≡ [] }
        ensures dropped { result.dropped.items ≡ [] }
        ensures places { result.places.items ≡ [] }
        ensures shown { result.shown.items ≡ [] }
        ensures imported { result.imported.items ≡ [] }
        ensures last_tick { result.last_tick ≡ None }
    {
        Change {
            nexts: Vec::new(alloc),
            rows: Vec::new(alloc),
            dropped: Vec::new(alloc),
            places: Vec::new(alloc),
            shown: Vec::new(alloc),
            imported: Vec::new(alloc),
            last_tick: None,
        }
    }
}
