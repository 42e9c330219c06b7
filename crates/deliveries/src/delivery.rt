//! What reaches the desk.
use points::{Content, Listing, Name};
use sched::CalendarEntry;

/// One delivery, as it came: it may be a repeat, and come late or out of order.
#[derive(Drop)]
pub enum Delivery {
    /// A panel's command under a number of the panel's own, 1 to 1,000,000,000,000.
    Command {
        panel: Name,
        number: i64,
        content: Content,
    },
    /// A panel gives up its numbers below `upto`, 1 to 1,000,000,000,001, under which nothing came.
    Skip {
        panel: Name,
        upto: i64,
    },
    /// The desk settles at this moment, in hundredths of a second since 1970-01-01T00:00:00Z: the schedules that
    /// are due write.
    Tick {
        at: i64,
    },
    /// Entries for calendars of the building.
    Import {
        rows: Listing<CalendarEntry>,
    },
}
