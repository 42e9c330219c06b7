//! The faults E1 to E7 of a text that spells no entry.
use std::error::Error;
use std::fmt;

/// Why a text spells no entry.
#[derive(Clone, Copy, Debug)]
pub enum EntryFault {
    /// E1: the text has none of the three forms.
    Shape,
    /// E2: a year that is neither four digits from 1900 to 2154 nor `*`.
    Year,
    /// E3: a month that is neither `01` to `12` nor `odd`, `even` or `*`.
    Month,
    /// E4: a day that is neither `01` to `31` nor `last`, `odd`, `even` or `*`, or a range's end
    /// that the calendar does not have.
    Day,
    /// E5: no weekday.
    Weekday,
    /// E6: a week that is neither `1` to `9` nor `*`.
    Week,
    /// E7: a range's end with a field that is not a number.
    HalfSpecified,
}

impl fmt::Display for EntryFault {
    ghost use Rattle.std.specs.Prelude.{Some};
    ghost use Rattle.dates.specs.EntryFault.{fault_text};

    ghost output = { λ fault. Some (fault_text fault) };

    fn fmt<W: fmt::Write>(&self, f: &mut fmt::Formatter<W>) -> fmt::Result {
        f.write_str(match self {
            EntryFault::Shape => "E1",
            EntryFault::Year => "E2",
            EntryFault::Month => "E3",
            EntryFault::Day => "E4",
            EntryFault::Weekday => "E5",
            EntryFault::Week => "E6",
            EntryFault::HalfSpecified => "E7",
        })
    }
}

impl Error for EntryFault {}
