//! The entries of calendars and exceptions, in their three forms.
ghost use Rattle.std.specs.Prelude.{◌≡◌, ◌↔◌, IfOk, string_bytes};

use crate::{Day, EntryFault, Pattern, Range, WeekNDay, Year, notation};
use std::alloc::{AllocError, Global};
use std::fmt;

/// An entry of a calendar, or the period of an exception (12.9 and 12.24).
///
/// It is written in one of three forms, in lower case:
///
/// - a pattern as `Y-M-D` or `Y-M-D/W`, as `2025-12-25` or `*-*-last/fri`;
/// - a range as `A..B`, each of A and B a full date `YYYY-MM-DD` or `*`;
/// - a week-and-day as `wnd:M:K:W`, as `wnd:*:6:mon`.
///
/// Y is four digits from 1900 to 2154, or `*`. M is `01` to `12`, `odd`, `even` or `*`. D is `01` to
/// `31`, `last`, `odd`, `even` or `*`. W is `mon` to `sun`; any weekday is written by leaving `/W`
/// away in a pattern, and by `*` in a week-and-day. K is `1` to `9`, or `*`. The notation is this
/// profile's own.
#[derive(Clone, Copy, Debug, PartialEq, Eq)]
pub enum Entry {
    Pattern(Pattern),
    Range(Range),
    WeekNDay(WeekNDay),
}

impl Entry {
    ghost use Rattle.dates.specs.Entry.{holds_on, reading, IsEntry, Spells};
    ghost use Rattle.dates.specs.declared.entry.Entry.{Entry as Declared};
    ghost use Rattle.dates.specs.Entry.{spelling};

    /// Reads an entry from exactly the texts that spell one, and takes no memory.
    ///
    /// Of another text it answers the first fault: that of the form (E1), then those of the parts from
    /// left to right. In a range the left end comes before the right one, and in an end a part that
    /// is no number (E7) before a date that the calendar lacks (E4).
    pub fn read(text: &str) -> Result<Entry, EntryFault>
        ensures spells { (e : Declared) → (result ≡ Ok e) ↔ Spells text.now e }
        ensures first_fault { result ≡ reading text.now }
    {
        Entry::read_form(text)
    }

    #[tactic(auto, unfolding(crate::specs::Entry::reading, crate::specs::Entry::dates_at))]
    fn read_form(text: &str) -> Result<Entry, EntryFault>
        ensures { result ≡ reading text.now }
    {
        if let Some(parts) = notation::without_prefix(text, "wnd:") {
            return Ok(Entry::WeekNDay(WeekNDay::read(parts)?));
        }
        if let Some((start, end)) = notation::cut_at(text, "..") {
            return Ok(Entry::Range(Range::read(start, end)?));
        }
        Ok(Entry::Pattern(Pattern::read(text)?))
    }

    /// Writes the entry in its one spelling. The only error is a failed allocation.
    pub fn write(&self, alloc: Global) -> Result<String, AllocError>
        ensures value { IfOk result (λ text. string_bytes text ≡ spelling self.now) }
        ensures range { IsEntry self.now }
    {
        self.lies_in_range();
        self.to_string(alloc)
    }

    /// The entry's numbers lie in their ranges: what this says holds of each entry, and nothing is done.
    pub fn lies_in_range(&self)
        ensures { IsEntry self.now }
    {
        // The numbers are in range, each by the type that holds it.
        match self {
            Entry::Pattern(pattern) => {
                let year = pattern.year().map(Year::number);
                prove!(year <= Some(2154));
                prove!(pattern.months().number() <= Some(12));
                prove!(pattern.days().number() <= Some(31));
            }
            Entry::Range(range) => {
                let (start, end) = (range.start.map(Day::year), range.end.map(Day::year));
                prove!(start <= Some(2154) && end <= Some(2154));
            }
            Entry::WeekNDay(week_n_day) => prove!(week_n_day.months().number() <= Some(12)),
        }
    }

    /// Whether the day is one of the entry's. It takes no memory.
    #[tactic(auto, unfolding(crate::specs::Entry::holds_on))]
    pub fn holds(&self, day: Day) -> bool
        ensures { result ≡ holds_on self.now day }
    {
        match self {
            Entry::Pattern(pattern) => pattern.holds(day),
            Entry::Range(range) => range.holds(day),
            Entry::WeekNDay(week_n_day) => week_n_day.holds(day),
        }
    }
}

impl fmt::Display for Entry {
    ghost use Rattle.std.specs.Prelude.{Some};
    ghost use Rattle.dates.specs.Entry.{spelling};

    ghost output = { λ x. Some (spelling x) };

    #[tactic(auto, unfolding(crate::specs::Entry::spelling))]
    fn fmt<W: fmt::Write>(&self, f: &mut fmt::Formatter<W>) -> fmt::Result {
        match self {
            Entry::Pattern(pattern) => pattern.fmt(f),
            Entry::Range(range) => range.fmt(f),
            Entry::WeekNDay(week_n_day) => week_n_day.fmt(f),
        }
    }
}
