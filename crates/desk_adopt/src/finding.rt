//! What of the tables does not suit a building.
use points::Name;
use std::fmt;

/// What of the tables does not suit the building. It is printed as a line, without the line end.
#[derive(Clone, Copy, Debug, PartialEq, Eq)]
pub enum Finding {
    /// The building has no panel of this name.
    UnknownPanel {
        panel: Name,
    },
    /// The building has no point of this name.
    UnknownPoint {
        point: Name,
    },
    /// The place has a value, and no schedule writes to the point at this priority, and no panel may.
    NobodyWrites {
        point: Name,
        priority: u8,
    },
    /// The place has a value that lies outside the point's kind.
    OutsideKind {
        point: Name,
        priority: u8,
        value: i64,
    },
    /// The building has no schedule of this name.
    UnknownSchedule {
        schedule: Name,
    },
    /// The building has no calendar of this name.
    UnknownCalendar {
        calendar: Name,
    },
    /// At the moment of the last tick, in hundredths of a second since 1970, the building's clock shows no time.
    NoTime {
        moment: i64,
    },
}

impl fmt::Display for Finding {
    ghost use Rattle.std.specs.Prelude.{Some};
    ghost use Rattle.desk_adopt.specs.FindingLine.{line_of};

    ghost output = { λ finding. Some (line_of finding) };

    fn fmt<W: fmt::Write>(&self, f: &mut fmt::Formatter<W>) -> fmt::Result {
        match self {
            Finding::UnknownPanel { panel } => write!(f, "panel {panel} is not in the building"),
            Finding::UnknownPoint { point } => write!(f, "point {point} is not in the building"),
            Finding::NobodyWrites { point, priority } => write!(
                f,
                "point {point} {priority}: no schedule and no panel writes there"
            ),
            Finding::OutsideKind {
                point,
                priority,
                value,
            } => write!(f, "point {point} {priority}: {value} is outside its kind"),
            Finding::UnknownSchedule { schedule } => {
                write!(f, "schedule {schedule} is not in the building")
            }
            Finding::UnknownCalendar { calendar } => {
                write!(f, "calendar {calendar} is not in the building")
            }
            Finding::NoTime { moment } => write!(
                f,
                "last tick {moment}: the building's clock shows no time then"
            ),
        }
    }
}
