//! Laws of the lines, each a contract of a function that does nothing.
ghost use Rattle.cli_days.specs.RangeDays.{RangeHasItsDays};
ghost use Rattle.cli_days.specs.Speaking.{SpeaksAtSomeTime};

/// An exception that has a value at one of its times, on a day on which it is in effect, is one that speaks at some time
/// of that day.
pub fn exception_speaks_at_some_time()
    ensures { SpeaksAtSomeTime }
{}

/// The days of a range are those from 1900-01-01 to 2154-12-31 that lie in it.
pub fn range_has_its_days()
    ensures { RangeHasItsDays }
{}
