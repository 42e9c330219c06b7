//! The keys of a building file.
ghost use Rattle.std.specs.Prelude.{◌≡◌};
ghost use Rattle.building.specs.FaultLine.{key_text};

use std::fmt;

/// A key of a building file, as a fault names it.
#[derive(Clone, Copy, Debug, PartialEq, Eq)]
pub enum Key {
    /// The file itself, where no key is at fault.
    File,
    /// A key that the table may not have.
    Unknown,
    Zone,
    Point,
    Panel,
    Calendar,
    Schedule,
    Name,
    Kind,
    States,
    Low,
    High,
    Default,
    Points,
    Priorities,
    Entries,
    Period,
    Priority,
    Targets,
    Weekly,
    Exception,
    OnLeave,
    Entry,
    Times,
}

impl Key {
    /// The key as text.
    pub fn as_str(self) -> &'static str
        ensures { result.now ≡ key_text self }
    {
        match self {
            Key::File => "-",
            Key::Unknown => "?",
            Key::Zone => "zone",
            Key::Point => "point",
            Key::Panel => "panel",
            Key::Calendar => "calendar",
            Key::Schedule => "schedule",
            Key::Name => "name",
            Key::Kind => "kind",
            Key::States => "states",
            Key::Low => "low",
            Key::High => "high",
            Key::Default => "default",
            Key::Points => "points",
            Key::Priorities => "priorities",
            Key::Entries => "entries",
            Key::Period => "period",
            Key::Priority => "priority",
            Key::Targets => "targets",
            Key::Weekly => "weekly",
            Key::Exception => "exception",
            Key::OnLeave => "on_leave",
            Key::Entry => "entry",
            Key::Times => "times",
        }
    }
}

impl fmt::Display for Key {
    ghost use Rattle.std.specs.Prelude.{Some};

    ghost output = { λ key. Some (key_text key) };

    fn fmt<W: fmt::Write>(&self, f: &mut fmt::Formatter<W>) -> fmt::Result {
        f.write_str(self.as_str())
    }
}
