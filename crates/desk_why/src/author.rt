//! What put a value in a place.
use points::Name;
use sched::Source;

/// The moment at which the schedules settled, in hundredths of a second since 1970-01-01T00:00:00Z.
#[derive(Clone, Copy)]
pub enum Settling {
    /// At this tick.
    Tick { at: i64 },
    /// At an import, at the moment of this tick, the last one before it.
    Import { after: i64 },
}

/// What put a value in a place.
#[derive(Clone, Copy)]
pub enum Author {
    /// A panel's command under this number, with the last tick that was before it, if there was one.
    Command {
        panel: Name,
        number: u64,
        after: Option<i64>,
    },
    /// A schedule that was due, with what gave its value.
    Schedule {
        schedule: Name,
        source: Source,
        settling: Settling,
    },
    /// What was put there before the record began.
    BeforeRecord,
}

/// The value in a place, and what put it there.
#[derive(Clone, Copy)]
pub struct Held {
    pub value: i64,
    pub author: Author,
}

/// A place of a priority array: its priority, 1 to 16, and what it holds; `None` is NULL.
#[derive(Clone, Copy)]
pub struct Place {
    pub priority: u8,
    pub held: Option<Held>,
}
