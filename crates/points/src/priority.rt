//! The priorities that a number may name.
ghost use Rattle.std.specs.Prelude.{◌≡◌};
ghost use Rattle.points.specs.Priority.{event_priority_of, write_priority_of};

/// The priority at which something may be written: 1 to 16, and not 6, which is for minimum on and off times alone
/// (19.2).
pub fn write_priority_of(number: i64) -> Option<u8>
    ensures { result ≡ write_priority_of number }
{
    if 1 <= number && number <= 16 && number != 6 {
        Some(number as u8)
    } else {
        None
    }
}

/// The EventPriority of an exception: 1 to 16 (12.24).
pub fn event_priority_of(number: i64) -> Option<u8>
    ensures { result ≡ event_priority_of number }
{
    if 1 <= number && number <= 16 {
        Some(number as u8)
    } else {
        None
    }
}
