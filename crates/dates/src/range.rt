//! Date ranges, which an unspecified end leaves open.
ghost use Rattle.std.specs.Prelude.{◌≡◌};

use crate::date_fields::DateFields;
use crate::{Day, EntryFault};
use std::fmt;

/// A date range: the days from its start to its end, both included (clause 21).
///
/// An end that is `None` is unspecified, and the range then goes on without limit. A range whose
/// start is after its end holds on no day, which is this profile's own.
#[derive(Clone, Copy, Debug, PartialEq, Eq)]
pub struct Range {
    pub start: Option<Day>,
    pub end: Option<Day>,
}

impl Range {
    ghost use Rattle.dates.specs.Range.{in_range, is_from, is_up_to, range_at, range_end_at};

    /// Reads the two ends of a range.
    #[tactic(auto, unfolding(crate::specs::Range::range_at))]
    pub(crate) fn read(left: &str, right: &str) -> Result<Range, EntryFault>
        ensures { result ≡ range_at left.now right.now }
    {
        let start = Range::read_end(left)?;
        let end = Range::read_end(right)?;
        Ok(Range { start, end })
    }

    #[tactic(auto, unfolding(crate::specs::Range::range_end_at))]
    fn read_end(text: &str) -> Result<Option<Day>, EntryFault>
        ensures { result ≡ range_end_at text.now }
    {
        match text {
            "*" => Ok(None),
            _ => Ok(Some(DateFields::read_day(text)?)),
        }
    }

    /// Whether the day is one of the range's.
    pub fn holds(&self, day: Day) -> bool
        ensures { result ≡ in_range self.now day }
    {
        self.starts_by(day) && self.ends_after(day)
    }

    fn starts_by(&self, day: Day) -> bool
        ensures { result ≡ is_from self.now.start day }
    {
        match self.start {
            Some(start) => start <= day,
            None => true,
        }
    }

    fn ends_after(&self, day: Day) -> bool
        ensures { result ≡ is_up_to self.now.end day }
    {
        match self.end {
            Some(end) => day <= end,
            None => true,
        }
    }
}

/// An end of a range, as it is written.
#[derive(Clone, Copy)]
struct RangeEnd(Option<Day>);

impl fmt::Display for RangeEnd {
    ghost use Rattle.std.specs.Prelude.{Some};
    ghost use Rattle.dates.specs.Range.{range_end_text};

    ghost output = { λ end. Some (range_end_text end.0) };

    fn fmt<W: fmt::Write>(&self, f: &mut fmt::Formatter<W>) -> fmt::Result {
        match self.0 {
            Some(day) => day.fmt(f),
            None => f.write_str("*"),
        }
    }
}

impl fmt::Display for Range {
    ghost use Rattle.std.specs.Prelude.{Some};
    ghost use Rattle.dates.specs.Range.{range_text};

    ghost output = { λ x. Some (range_text x) };

    fn fmt<W: fmt::Write>(&self, f: &mut fmt::Formatter<W>) -> fmt::Result {
        write!(f, "{}..{}", RangeEnd(self.start), RangeEnd(self.end))
    }
}
