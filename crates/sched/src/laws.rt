//! Laws of the value of a schedule and of the segments of a day, each a contract of a function that does nothing.
ghost use Rattle.sched.specs.SegmentLaws.{LastSegmentHasTheValue, ValueStandsBetweenSegments};
ghost use Rattle.sched.specs.ValueCases.{ListValueIsTheLatest, ValueIsByThreeCases};

/// The value of a list at a time is that of its element with the greatest pair of time and position among
/// those that are not later, and NULL where there is none.
pub fn list_value_is_the_latest()
    ensures { ListValueIsTheLatest }
{}

/// The value of a schedule is that of one of three cases, over all exceptions, the weekday's list and the
/// default, and of no other.
pub fn value_is_by_three_cases()
    ensures { ValueIsByThreeCases }
{}

/// The value at any time is that of the last segment that is not later.
pub fn last_segment_has_the_value()
    ensures { LastSegmentHasTheValue }
{}

/// From one segment to the next the value stands.
pub fn value_stands_between_segments()
    ensures { ValueStandsBetweenSegments }
{}
