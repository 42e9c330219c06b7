//! What can be wrong in a building file.

use dates::EntryFault;
use std::fmt;

/// What is wrong in a building file. It is printed as its number, B1 to B13, and B8 with the number of the
/// entry's fault after it.
#[derive(Clone, Copy, Debug)]
pub enum Cause {
    /// B1: the file is no TOML, or not UTF-8.
    NotToml,
    /// B2: a table has a key that it may not have.
    UnknownKey,
    /// B3: a key is missing.
    MissingKey,
    /// B4: a value is not of the type, or not of the words, that its key takes.
    WrongType,
    /// B5: a text has not the shape of a name.
    NotAName,
    /// B6: a name that stands there before.
    RepeatedName,
    /// B7: a name that nothing in the file has.
    UnknownName,
    /// B8: a text that is no entry, or no entry of the form that its key takes.
    NotAnEntry(EntryFault),
    /// B9: a text that is no time value.
    NotATimeValue,
    /// B10: a number that is no priority, or 6 where something is written at it.
    NotAPriority,
    /// B11: a value outside a kind, or a `low` above its `high`.
    OutsideKind,
    /// B12: a text that is no rule of a time zone.
    NotAZoneRule,
    /// B13: more than a limit allows.
    BeyondLimit,
}

impl fmt::Display for Cause {
    ghost use Rattle.std.specs.Prelude.{Some};
    ghost use Rattle.building.specs.FaultLine.{cause_text};

    ghost output = { λ cause. Some (cause_text cause) };

    fn fmt<W: fmt::Write>(&self, f: &mut fmt::Formatter<W>) -> fmt::Result {
        match self {
            Cause::NotToml => f.write_str("B1"),
            Cause::UnknownKey => f.write_str("B2"),
            Cause::MissingKey => f.write_str("B3"),
            Cause::WrongType => f.write_str("B4"),
            Cause::NotAName => f.write_str("B5"),
            Cause::RepeatedName => f.write_str("B6"),
            Cause::UnknownName => f.write_str("B7"),
            Cause::NotAnEntry(fault) => write!(f, "B8 {fault}"),
            Cause::NotATimeValue => f.write_str("B9"),
            Cause::NotAPriority => f.write_str("B10"),
            Cause::OutsideKind => f.write_str("B11"),
            Cause::NotAZoneRule => f.write_str("B12"),
            Cause::BeyondLimit => f.write_str("B13"),
        }
    }
}
