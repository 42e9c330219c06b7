//! Laws of hints, each a contract of a function that does nothing.
ghost use Rattle.building_hints.specs.EntryDays.{HoldsOnADay};
ghost use Rattle.building_hints.specs.NullLists.{NullAtEachTime};

/// An entry holds on some day exactly where there is a day from 1900-01-01 to 2154-12-31 on which it holds.
pub fn some_day_is_a_day()
    ensures { HoldsOnADay }
{}

/// A list is NULL all day exactly where it has no value at each time.
pub fn null_all_day_is_at_each_time()
    ensures { NullAtEachTime }
{}
