//! The rows of an import.
ghost use Rattle.std.specs.Prelude.{◌≡◌};
ghost use Rattle.deliveries.specs.Events.{has_calendar};
ghost use Rattle.deliveries.specs.Reply.{refused_record};

use building::Building;
use sched::CalendarEntry;

fn has_calendar(building: &Building, row: &CalendarEntry) -> bool
    ensures { result ≡ has_calendar building.now row.now }
{
    row.calendar.index < building.calendars().len()
}

/// The record of the first row that names no calendar of the building, if there is one: the header is record 1.
pub fn refused_record(building: &Building, rows: &[CalendarEntry]) -> Option<u64>
    ensures { result ≡ refused_record building.now rows.now }
{
    let mut record = 2;
    for row in rows {
        if !has_calendar(building, row) {
            return Some(record);
        }
        record += 1;
    }
    None
}
