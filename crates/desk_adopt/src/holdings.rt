//! What the tables hold.
use std::fmt;

/// How much the tables hold. It is printed as a line, without the line end.
#[derive(Clone, Copy, Debug, PartialEq, Eq)]
pub struct Holdings {
    /// The panels that stand in the tables.
    pub panels: usize,
    /// The points that have a value in a place.
    pub points: usize,
    /// The schedules that show a value or NULL.
    pub schedules: usize,
    /// The entries that are imported into calendars.
    pub entries: u128,
}

impl fmt::Display for Holdings {
    ghost use Rattle.std.specs.Prelude.{Some};
    ghost use Rattle.desk_adopt.specs.FindingLine.{holdings_line};

    ghost output = { λ holdings. Some (holdings_line holdings) };

    fn fmt<W: fmt::Write>(&self, f: &mut fmt::Formatter<W>) -> fmt::Result {
        write!(
            f,
            "tables: {} panels, {} points with values, {} schedules shown, {} imported entries",
            self.panels, self.points, self.schedules, self.entries
        )
    }
}
