//! A name that the building has in place of an earlier one.
use points::Name;
use std::fmt;

/// What a name is the name of.
#[derive(Clone, Copy, Debug, PartialEq, Eq)]
pub enum NameKind {
    Panel,
    Point,
    Schedule,
    Calendar,
}

impl fmt::Display for NameKind {
    ghost use Rattle.std.specs.Prelude.{Some};
    ghost use Rattle.desk_adopt.specs.NoteLine.{kind_text};

    ghost output = { λ kind. Some (kind_text kind) };

    fn fmt<W: fmt::Write>(&self, f: &mut fmt::Formatter<W>) -> fmt::Result {
        f.write_str(match self {
            NameKind::Panel => "panel",
            NameKind::Point => "point",
            NameKind::Schedule => "schedule",
            NameKind::Calendar => "calendar",
        })
    }
}

/// A name of the earlier tables, and the one that the building has in its place. It is printed as a line, without the
/// line end.
#[derive(Clone, Copy, Debug, PartialEq, Eq)]
pub struct RenamedName {
    pub kind: NameKind,
    pub old: Name,
    pub new: Name,
}

impl fmt::Display for RenamedName {
    ghost use Rattle.std.specs.Prelude.{Some};
    ghost use Rattle.desk_adopt.specs.NoteLine.{line_of};

    ghost output = { λ renamed. Some (line_of renamed) };

    fn fmt<W: fmt::Write>(&self, f: &mut fmt::Formatter<W>) -> fmt::Result {
        let RenamedName { kind, old, new } = self;
        write!(f, "{kind} {old} is {new}")
    }
}
