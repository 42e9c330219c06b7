//! The kinds of table that a building file has, and what their keys take.

use building::{FileFault, Key, Section};

/// A kind of table that a building file has.
#[derive(Clone, Copy)]
pub(crate) enum TableKind {
    Top,
    Point,
    Panel,
    Calendar,
    Schedule,
    /// An exception of a schedule.
    Exception,
}

/// The values that stand at a key.
#[derive(Clone, Copy)]
pub(crate) enum Shape {
    /// One value.
    One,
    /// A list of so many items at most.
    List { most: usize },
    /// A list for each day of the week.
    Week,
}

/// The type of a value, or of each item of a list.
#[derive(Clone, Copy)]
pub(crate) enum ItemType {
    Text,
    Integer,
    Table,
}

impl TableKind {
    /// The kind of the tables of a section.
    pub fn of_section(section: Section) -> TableKind {
        match section {
            Section::Top => TableKind::Top,
            Section::Point => TableKind::Point,
            Section::Panel => TableKind::Panel,
            Section::Calendar => TableKind::Calendar,
            Section::Schedule => TableKind::Schedule,
        }
    }

    /// The section whose tables these are: none of the file's own table and of an exception.
    pub fn section(self) -> Option<Section> {
        match self {
            TableKind::Top | TableKind::Exception => None,
            TableKind::Point => Some(Section::Point),
            TableKind::Panel => Some(Section::Panel),
            TableKind::Calendar => Some(Section::Calendar),
            TableKind::Schedule => Some(Section::Schedule),
        }
    }

    /// Whether the tables of this kind may have the key.
    pub fn has(self, key: &str) -> bool {
        match self {
            TableKind::Top => matches!(key, "zone" | "point" | "panel" | "calendar" | "schedule"),
            TableKind::Point => matches!(
                key,
                "name" | "kind" | "states" | "low" | "high" | "default"
            ),
            TableKind::Panel => matches!(key, "name" | "points" | "priorities"),
            TableKind::Calendar => matches!(key, "name" | "entries"),
            TableKind::Schedule => matches!(
                key,
                "name"
                    | "period"
                    | "priority"
                    | "targets"
                    | "default"
                    | "weekly"
                    | "exception"
                    | "on_leave"
            ),
            TableKind::Exception => matches!(key, "priority" | "entry" | "calendar" | "times"),
        }
    }

    /// The kind in words, with the keys that it takes.
    pub fn with_keys(self) -> &'static str {
        match self {
            TableKind::Top => "the file, which takes zone, point, panel, calendar and schedule",
            TableKind::Point => "a point, which takes name, kind, states, low, high and default",
            TableKind::Panel => "a panel, which takes name, points and priorities",
            TableKind::Calendar => "a calendar, which takes name and entries",
            TableKind::Schedule => {
                "a schedule, which takes name, period, priority, targets, default, weekly, exception and on_leave"
            }
            TableKind::Exception => {
                "an exception, which takes priority, entry or calendar, and times"
            }
        }
    }

    /// The values that stand at a key.
    pub fn shape_of(self, key: Key) -> Shape {
        match (self, key) {
            (TableKind::Top, Key::Point) => Shape::List { most: 1_000 },
            (TableKind::Top, Key::Panel) => Shape::List { most: 200 },
            (TableKind::Top, Key::Calendar) => Shape::List { most: 100 },
            (TableKind::Top, Key::Schedule) => Shape::List { most: 500 },
            (_, Key::Points | Key::Priorities) => Shape::List { most: usize::MAX },
            (_, Key::Entries) => Shape::List { most: 1_000 },
            (_, Key::Targets | Key::Exception | Key::Times) => Shape::List { most: 100 },
            (_, Key::Weekly) => Shape::Week,
            _ => Shape::One,
        }
    }

    /// The type of the value at a key, or of the items of its list.
    pub fn item_type(self, key: Key) -> ItemType {
        match (self, key) {
            (TableKind::Top, Key::Point | Key::Panel | Key::Calendar | Key::Schedule)
            | (_, Key::Exception) => ItemType::Table,
            (
                _,
                Key::States | Key::Low | Key::High | Key::Default | Key::Priorities | Key::Priority,
            ) => ItemType::Integer,
            _ => ItemType::Text,
        }
    }

    /// What a key takes, in words.
    pub fn taken_by(self, key: Key) -> &'static str {
        match (self, key) {
            (_, Key::Points | Key::Targets) => "a list of names of points",
            (_, Key::Priorities) => "a list of whole numbers from 1 to 16, not 6",
            (_, Key::Entries) => "a list of entries, each a text as 2025-12-25",
            (_, Key::Weekly) => "seven lists of time values, Monday's first",
            (_, Key::Times) => "a list of time values, each a text as 08:00=2100",
            (TableKind::Top, Key::Point) => "tables, each under [[point]]",
            (TableKind::Top, Key::Panel) => "tables, each under [[panel]]",
            (TableKind::Top, Key::Calendar) => "tables, each under [[calendar]]",
            (TableKind::Top, Key::Schedule) => "tables, each under [[schedule]]",
            (_, Key::Exception) => "tables, each under [[schedule.exception]]",
            _ => self.item_taken_by(key),
        }
    }

    /// What an item of a key's list is, in words; of a key that takes no list, what the key takes.
    pub fn item_taken_by(self, key: Key) -> &'static str {
        match (self, key) {
            (_, Key::Zone) => {
                "a POSIX rule of a time zone as text, as CET-1CEST,M3.5.0,M10.5.0/3 or UTC0"
            }
            (TableKind::Top, _) => section_table(key),
            (TableKind::Schedule, Key::Default) => "a whole number, a value of each target's kind",
            (_, Key::Default) => "a whole number, a value of the point's kind",
            (TableKind::Exception, Key::Priority) => "a whole number from 1 to 16",
            (TableKind::Exception, Key::Calendar) => "the name of a calendar as text",
            _ => taken_alike(key),
        }
    }
}

/// A table of a section.
fn section_table(key: Key) -> &'static str {
    match key {
        Key::Point => "a table under [[point]]",
        Key::Panel => "a table under [[panel]]",
        Key::Calendar => "a table under [[calendar]]",
        Key::Schedule => "a table under [[schedule]]",
        _ => "a building file, TOML in UTF-8",
    }
}

/// What a key takes, whichever table it stands in.
fn taken_alike(key: Key) -> &'static str {
    match key {
        Key::Name => "a text of 1 to 32 ASCII letters, digits, -, _ and .",
        Key::Kind => "\"binary\", \"multi\" or \"analog\"",
        Key::States => "a whole number from 1 to 1000",
        Key::Low | Key::High => "a whole number from -1000000000 to 1000000000",
        Key::Points | Key::Targets => "the name of a point as text",
        Key::Priorities | Key::Priority => "a whole number from 1 to 16, not 6",
        Key::Entries => "an entry as text, as 2025-12-25",
        Key::Entry => "an entry as text, as 2025-12-25, or calendar in its place",
        Key::Period => "a range A..B as text, each of A and B a date YYYY-MM-DD or *",
        Key::Weekly | Key::Times => "a time value as text, as 08:00=2100",
        Key::Exception => "a table under [[schedule.exception]]",
        Key::OnLeave => "\"stay\" or \"release\"",
        _ => "a key that this table takes",
    }
}

/// The kind of the table that a fault names.
pub(crate) fn kind_at(fault: &FileFault) -> TableKind {
    TableKind::of_section(fault.section)
}
