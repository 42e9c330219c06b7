//! Where tables differ from those of a record.
use dates::Entry;
use points::Name;
use std::fmt;

/// A value in a place, or nothing.
#[derive(Clone, Copy)]
struct PlaceText(Option<i64>);

/// A moment, or none.
#[derive(Clone, Copy)]
struct MomentText(Option<i64>);

/// What a place has, and what the record has there.
#[derive(Clone, Copy)]
struct BothValues {
    held: PlaceText,
    recorded: PlaceText,
}

/// An entry of a calendar.
#[derive(Clone, Copy)]
struct EntryText {
    calendar: Name,
    entry: Entry,
}

/// A place where the tables of a database differ from those of a record. It is printed as a line, without the line end.
#[derive(Clone, Copy, Debug)]
pub enum Difference {
    /// The panel has another next number.
    NextNumber {
        panel: Name,
        held: u64,
        recorded: u64,
    },
    /// The panel has another row under this number, or it has one on one side alone.
    Command {
        panel: Name,
        number: u64,
    },
    /// The place has another value, or it has one on one side alone.
    Place {
        point: Name,
        priority: u8,
        held: Option<i64>,
        recorded: Option<i64>,
    },
    /// The schedule shows another value, or it is quiet on one side alone.
    Shown {
        schedule: Name,
    },
    /// The entry is imported into the calendar of the database, and not into that of the record.
    NotRecorded {
        calendar: Name,
        entry: Entry,
    },
    /// The entry is imported into the calendar of the record, and not into that of the database.
    RecordedAlone {
        calendar: Name,
        entry: Entry,
    },
    /// The last tick was at another moment, in hundredths of a second since 1970, or there was one on one side alone.
    LastTick {
        held: Option<i64>,
        recorded: Option<i64>,
    },
}

impl Difference {
    /// Whether it shows that the database is older than the record.
    pub(crate) fn shows_older(&self) -> bool {
        match self {
            Difference::NextNumber { held, recorded, .. } => *held < *recorded,
            Difference::LastTick { held, recorded } => match (held, recorded) {
                (Some(held), Some(recorded)) => *held < *recorded,
                (None, Some(_)) => true,
                _ => false,
            },
            _ => false,
        }
    }
}

impl fmt::Display for PlaceText {
    ghost use Rattle.std.specs.Prelude.{Some};
    ghost use Rattle.cli_record.specs.DifferenceLine.{place_text};

    ghost output = { λ text. Some (place_text text.0) };

    fn fmt<W: fmt::Write>(&self, f: &mut fmt::Formatter<W>) -> fmt::Result {
        match self.0 {
            Some(value) => write!(f, "{value}"),
            None => f.write_str("nothing"),
        }
    }
}

impl fmt::Display for MomentText {
    ghost use Rattle.std.specs.Prelude.{Some};
    ghost use Rattle.cli_record.specs.DifferenceLine.{moment_text};

    ghost output = { λ text. Some (moment_text text.0) };

    fn fmt<W: fmt::Write>(&self, f: &mut fmt::Formatter<W>) -> fmt::Result {
        match self.0 {
            Some(moment) => write!(f, "{moment}"),
            None => f.write_str("none"),
        }
    }
}

impl fmt::Display for BothValues {
    ghost use Rattle.std.specs.Prelude.{Some};
    ghost use Rattle.cli_record.specs.DifferenceLine.{both_values};

    ghost output = { λ both. Some (both_values both.held.0 both.recorded.0) };

    fn fmt<W: fmt::Write>(&self, f: &mut fmt::Formatter<W>) -> fmt::Result {
        write!(f, "{}, and {} by the record", self.held, self.recorded)
    }
}

impl fmt::Display for EntryText {
    ghost use Rattle.std.specs.Prelude.{Some};
    ghost use Rattle.cli_record.specs.DifferenceLine.{entry_text};

    ghost output = { λ text. Some (entry_text text.calendar text.entry) };

    fn fmt<W: fmt::Write>(&self, f: &mut fmt::Formatter<W>) -> fmt::Result {
        write!(f, "calendar {} {}", self.calendar, self.entry)
    }
}

impl fmt::Display for Difference {
    ghost use Rattle.std.specs.Prelude.{Some};
    ghost use Rattle.cli_record.specs.DifferenceLine.{line_of};

    ghost output = { λ difference. Some (line_of difference) };

    fn fmt<W: fmt::Write>(&self, f: &mut fmt::Formatter<W>) -> fmt::Result {
        match self {
            Difference::NextNumber {
                panel,
                held,
                recorded,
            } => write!(
                f,
                "panel {panel}: next number {held}, and {recorded} by the record"
            ),
            Difference::Command { panel, number } => {
                write!(
                    f,
                    "panel {panel} command {number}: not as the record has it"
                )
            }
            Difference::Place {
                point,
                priority,
                held,
                recorded,
            } => {
                let both = BothValues {
                    held: PlaceText(*held),
                    recorded: PlaceText(*recorded),
                };
                write!(f, "point {point} {priority}: {both}")
            }
            Difference::Shown { schedule } => {
                write!(f, "schedule {schedule}: not shown as the record has it")
            }
            Difference::NotRecorded { calendar, entry } => {
                let text = EntryText {
                    calendar: *calendar,
                    entry: *entry,
                };
                write!(f, "{text}: not in the record")
            }
            Difference::RecordedAlone { calendar, entry } => {
                let text = EntryText {
                    calendar: *calendar,
                    entry: *entry,
                };
                write!(f, "{text}: in the record alone")
            }
            Difference::LastTick { held, recorded } => {
                let (held, recorded) = (MomentText(*held), MomentText(*recorded));
                write!(f, "last tick {held}, and {recorded} by the record")
            }
        }
    }
}
