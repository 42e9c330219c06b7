//! The sections of a building file.

use std::fmt;

/// A section of a building file: the top table, or the tables of one kind.
#[derive(Clone, Copy, Debug, PartialEq, Eq)]
pub enum Section {
    Top,
    Point,
    Panel,
    Calendar,
    Schedule,
}

impl fmt::Display for Section {
    ghost use Rattle.std.specs.Prelude.{Some};
    ghost use Rattle.building.specs.FaultLine.{section_text};

    ghost output = { λ section. Some (section_text section) };

    fn fmt<W: fmt::Write>(&self, f: &mut fmt::Formatter<W>) -> fmt::Result {
        f.write_str(match self {
            Section::Top => "top",
            Section::Point => "point",
            Section::Panel => "panel",
            Section::Calendar => "calendar",
            Section::Schedule => "schedule",
        })
    }
}
