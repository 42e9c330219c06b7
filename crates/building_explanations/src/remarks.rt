//! What is wrong with a value, by the cause of a fault.

use crate::entry_words::{EntryRemark, entry_remark, period_remark};
use crate::limits::Limits;
use crate::remark::Remark;
use crate::table_at::{
    TableAt, kind_in, kind_of_point, list_in, name_in, number_in, position_of_name, section_items,
};
use crate::table_kind::ItemType;
use crate::time_values::{TimeValueFault, value_of};
use building::{Cause, Key, Section, ZoneRule};
use points::{GREATEST_ANALOG, Kind, LEAST_ANALOG, MOST_STATES, Name, NameFault};
use toml::Value;

/// What is wrong with a value at a key, or with an item of its list, if the cause holds of it. `earlier` are the items
/// of the list before it.
pub(crate) fn remark_on<'a>(
    at: &TableAt<'a>,
    key: Key,
    cause: Cause,
    earlier: &'a [Value],
    value: &'a Value,
) -> Option<Remark<'a>> {
    match cause {
        Cause::WrongType => type_remark(at, key, value),
        Cause::NotAName => Some(Remark::NotAName(name_fault(key, value)?)),
        Cause::RepeatedName => repeated_remark(at, key, earlier, value),
        Cause::UnknownName => unknown_remark(at, key, value),
        Cause::NotAnEntry(_) => Some(Remark::NotAnEntry(entry_text_remark(key, value)?)),
        Cause::NotATimeValue => Some(Remark::NotATimeValue(time_value_fault(key, value)?)),
        Cause::NotAPriority => priority_remark(at, key, value),
        Cause::OutsideKind => outside_remark(at, key, value),
        Cause::NotAZoneRule => zone_remark(at, key, value),
        Cause::BeyondLimit => limit_remark(at, key, value),
        Cause::NotToml | Cause::UnknownKey | Cause::MissingKey => None,
    }
}

/// B4: a value of another type, or another word.
fn type_remark<'a>(at: &TableAt<'a>, key: Key, value: &Value) -> Option<Remark<'a>> {
    let is_taken = match at.kind.item_type(key) {
        ItemType::Text => is_word_of(key, value),
        ItemType::Integer => value.is_integer(),
        ItemType::Table => value.is_table(),
    };
    if is_taken {
        None
    } else {
        Some(Remark::Expected {
            what: at.kind.item_taken_by(key),
        })
    }
}

/// Whether a value is a text, and one of the words of its key.
fn is_word_of(key: Key, value: &Value) -> bool {
    match (key, value.as_str()) {
        (_, None) => false,
        (Key::Kind, Some(word)) => matches!(word, "binary" | "multi" | "analog"),
        (Key::OnLeave, Some(word)) => matches!(word, "stay" | "release"),
        _ => true,
    }
}

/// B5: a text that has not the shape of a name.
fn name_fault(key: Key, value: &Value) -> Option<NameFault> {
    match key {
        Key::Name => Name::read(value.as_str()?).err(),
        _ => None,
    }
}

/// B6: the name of an earlier table of the section, or the text of an earlier item of the list.
fn repeated_remark<'a>(
    at: &TableAt<'a>,
    key: Key,
    earlier: &'a [Value],
    value: &Value,
) -> Option<Remark<'a>> {
    let text = value.as_str()?;
    match key {
        Key::Name => named_before(at, text),
        Key::Points | Key::Targets => listed_before(key, earlier, text),
        _ => None,
    }
}

fn named_before<'a>(at: &TableAt<'a>, text: &str) -> Option<Remark<'a>> {
    let section = at.kind.section()?;
    let position = position_of_name(section_items(at.top, section), text)?;
    if position < at.position {
        Some(Remark::NamedBefore { section, position })
    } else {
        None
    }
}

fn listed_before<'a>(key: Key, earlier: &'a [Value], text: &str) -> Option<Remark<'a>> {
    Some(Remark::ListedBefore {
        key: key.as_str(),
        index: place_of_text(earlier, text)?,
    })
}

/// The position of the first item that is this text, from 1.
fn place_of_text(items: &[Value], text: &str) -> Option<usize> {
    for (index, item) in items.iter().enumerate() {
        if matches!(item.as_str(), Some(other) if other == text) {
            return Some(index + 1);
        }
    }
    None
}

/// B7: a name that no point, or no calendar, of the file has.
fn unknown_remark<'a>(at: &TableAt<'a>, key: Key, value: &Value) -> Option<Remark<'a>> {
    let text = value.as_str()?;
    match key {
        Key::Points | Key::Targets => nobodys_name(at, Section::Point, text),
        Key::Calendar => nobodys_name(at, Section::Calendar, text),
        _ => None,
    }
}

fn nobodys_name<'a>(at: &TableAt<'a>, section: Section, text: &str) -> Option<Remark<'a>> {
    match position_of_name(section_items(at.top, section), text) {
        Some(_) => None,
        None => Some(Remark::NobodysName { section }),
    }
}

/// B8: a text that is no entry, or no range where a period stands.
fn entry_text_remark(key: Key, value: &Value) -> Option<EntryRemark> {
    let text = value.as_str()?;
    match key {
        Key::Entries | Key::Entry => entry_remark(text),
        Key::Period => period_remark(text),
        _ => None,
    }
}

/// B9: a text that is no time value.
fn time_value_fault(key: Key, value: &Value) -> Option<TimeValueFault> {
    match key {
        Key::Weekly | Key::Times => value_of(value.as_str()?).err(),
        _ => None,
    }
}

/// B10: a number that is no priority, or 6 where something is written at it.
fn priority_remark<'a>(at: &TableAt<'a>, key: Key, value: &Value) -> Option<Remark<'a>> {
    let number = value.as_integer()?;
    let is_written = at.exception.is_none();
    match number {
        6 if is_written => Some(Remark::KeptPriority),
        1..=16 => None,
        _ => Some(Remark::Expected {
            what: at.kind.item_taken_by(key),
        }),
    }
}

/// B11: a value outside a kind, or a `high` below its `low`.
fn outside_remark<'a>(at: &TableAt<'a>, key: Key, value: &Value) -> Option<Remark<'a>> {
    match key {
        Key::High => below_low(at, value.as_integer()?),
        Key::Default => outside_kinds(at, value.as_integer()?),
        Key::Weekly | Key::Times => outside_in_time(at, value.as_str()?),
        _ => None,
    }
}

fn below_low<'a>(at: &TableAt<'a>, high: i64) -> Option<Remark<'a>> {
    let low = number_in(at.table, Key::Low)?;
    if high < low {
        Some(Remark::BelowLow { low })
    } else {
        None
    }
}

/// The value of a time value outside a kind.
fn outside_in_time<'a>(at: &TableAt<'a>, text: &str) -> Option<Remark<'a>> {
    match value_of(text) {
        Ok(Some(value)) => outside_kinds(at, value),
        _ => None,
    }
}

/// A value outside the kind of the point that the table is of, or of the first such point among the targets.
fn outside_kinds<'a>(at: &TableAt<'a>, value: i64) -> Option<Remark<'a>> {
    match at.limits {
        None => outside_kind(kind_in(at.table)?, name_in(at.table)?, value),
        Some(limits) if limits.has(value) => None,
        Some(_) => outside_targets(at, list_in(at.outer, Key::Targets)?, value),
    }
}

fn outside_targets<'a>(at: &TableAt<'a>, targets: &'a [Value], value: i64) -> Option<Remark<'a>> {
    for target in targets {
        if let Some(remark) = outside_target(at, target, value) {
            return Some(remark);
        }
    }
    None
}

fn outside_target<'a>(at: &TableAt<'a>, target: &'a Value, value: i64) -> Option<Remark<'a>> {
    let point = target.as_str()?;
    outside_kind(kind_of_point(at.top, point)?, point, value)
}

fn outside_kind<'a>(kind: Kind, point: &'a str, value: i64) -> Option<Remark<'a>> {
    let limits = Limits::of_kind(kind);
    if limits.has(value) {
        None
    } else {
        Some(Remark::OutsideKind {
            value,
            limits,
            point,
        })
    }
}

/// B12: a text that is no rule of a time zone.
fn zone_remark<'a>(at: &TableAt<'a>, key: Key, value: &Value) -> Option<Remark<'a>> {
    match ZoneRule::read(value.as_str()?) {
        Some(_) => None,
        None => Some(Remark::Expected {
            what: at.kind.item_taken_by(key),
        }),
    }
}

/// B13: a number of states, a `low` or a `high` beyond its limits.
fn limit_remark<'a>(at: &TableAt<'a>, key: Key, value: &Value) -> Option<Remark<'a>> {
    let number = value.as_integer()?;
    let is_within = match key {
        Key::States => 1 <= number && number <= MOST_STATES,
        Key::Low | Key::High => LEAST_ANALOG <= number && number <= GREATEST_ANALOG,
        _ => true,
    };
    if is_within {
        None
    } else {
        Some(Remark::Expected {
            what: at.kind.item_taken_by(key),
        })
    }
}
