//! What is wrong with an item.

use crate::entry_words::EntryRemark;
use crate::limits::Limits;
use crate::table_kind::TableKind;
use crate::time_values::TimeValueFault;
use building::Section;
use points::NameFault;
use std::fmt;

/// What is wrong with an item, and what is expected there.
#[derive(Clone, Copy)]
pub(crate) enum Remark<'a> {
    Expected {
        what: &'static str,
    },
    /// No table of this kind has the key.
    OtherKey(TableKind),
    /// A point of this kind does not have the key.
    OtherKind {
        kind: &'static str,
    },
    /// An exception has an entry and a calendar.
    BothPeriods,
    NotAName(NameFault),
    /// An earlier table of the section has the name.
    NamedBefore {
        section: Section,
        position: usize,
    },
    /// An earlier item of the list is the same.
    ListedBefore {
        key: &'a str,
        index: usize,
    },
    /// No table of the section has the name.
    NobodysName {
        section: Section,
    },
    NotAnEntry(EntryRemark),
    NotATimeValue(TimeValueFault),
    /// 6, where something is written at the priority.
    KeptPriority,
    /// A value outside the kind of the point of this name.
    OutsideKind {
        value: i64,
        limits: Limits,
        point: &'a str,
    },
    BelowLow {
        low: i64,
    },
    AtMost {
        most: usize,
    },
}

impl fmt::Display for Remark<'_> {
    fn fmt<W: fmt::Write>(&self, f: &mut fmt::Formatter<W>) -> fmt::Result {
        match self {
            Remark::Expected { what } => write!(f, "expected {what}"),
            Remark::OtherKey(kind) => write!(f, "no key of {}", kind.with_keys()),
            Remark::OtherKind { kind } => write!(f, "no key of a point whose kind is {kind}"),
            Remark::BothPeriods => f.write_str("an exception has entry or calendar, not both"),
            Remark::NotAName(fault) => write!(f, "{fault}"),
            Remark::NamedBefore { section, position } => {
                write!(f, "{section} {position} has this name already")
            }
            Remark::ListedBefore { key, index } => {
                write!(f, "{key}[{index}] has this name already")
            }
            Remark::NobodysName { section } => write!(f, "no {section} of the file has this name"),
            Remark::NotAnEntry(remark) => write!(f, "{remark}"),
            Remark::NotATimeValue(fault) => write!(f, "{fault}"),
            Remark::KeptPriority => f.write_str(
                "6 is for minimum on and off times alone; expected a whole number from 1 to 16, not 6",
            ),
            Remark::OutsideKind {
                value,
                limits,
                point,
            } => write!(f, "{value} is outside {limits}, the values of {point}"),
            Remark::BelowLow { low } => write!(f, "below low, which is {low}"),
            Remark::AtMost { most } => write!(f, "at most {most} are allowed"),
        }
    }
}
