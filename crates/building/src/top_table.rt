//! The top table of a building file.

ghost use Rattle.std.specs.Prelude.{◌≡◌, option_map};
ghost use Rattle.toml.specs.View.{items_view, table_view};
ghost use Rattle.points.specs.FaultSteps.{result_map};
ghost use Rattle.local_times.specs.ZoneRule.{rule_text};
ghost use Rattle.building.specs.TopTable.{section_at, section_of, section_or_none, top_in, top_of, zone_at};

use crate::cause::Cause;
use crate::fields::Fields;
use crate::file_fault::FileFault;
use crate::key::Key;
use crate::location::Location;
use local_times::ZoneRule;
use toml::{Table, Value};

/// The points that a building has at most (this profile's limit).
const MOST_POINTS: usize = 1_000;

/// The panels that a building has at most (this profile's limit).
const MOST_PANELS: usize = 200;

/// The calendars that a building has at most (this profile's limit).
const MOST_CALENDARS: usize = 100;

/// The schedules that a building has at most (this profile's limit).
const MOST_SCHEDULES: usize = 500;

/// The zone of a building, and the tables of each section.
#[derive(Clone, Copy)]
pub(crate) struct TopTable<'a> {
    pub zone: ZoneRule,
    pub points: &'a [Value],
    pub panels: &'a [Value],
    pub calendars: &'a [Value],
    pub schedules: &'a [Value],
}

impl<'a> TopTable<'a> {
    /// What the top table says. Its faults come before those of the tables in it.
    #[tactic(auto, unfolding(crate::specs::TopTable::top_in))]
    pub(crate) fn read(table: &'a Table) -> Result<TopTable<'a>, FileFault>
        ensures { result_map top_of result ≡ top_in (table_view table.now) }
    {
        let fields = Fields {
            table,
            location: Location::TOP,
        };
        fields.has_only(&[
            Key::Zone,
            Key::Point,
            Key::Panel,
            Key::Calendar,
            Key::Schedule,
        ])?;
        let zone = zone_at(&fields)?;
        let points = section_at(&fields, Key::Point, MOST_POINTS)?;
        let panels = section_at(&fields, Key::Panel, MOST_PANELS)?;
        let calendars = section_at(&fields, Key::Calendar, MOST_CALENDARS)?;
        let schedules = section_at(&fields, Key::Schedule, MOST_SCHEDULES)?;
        Ok(TopTable {
            zone,
            points,
            panels,
            calendars,
            schedules,
        })
    }
}

/// The rule of the building's time zone (B3, B4, B12).
fn zone_at(fields: &Fields<'_>) -> Result<ZoneRule, FileFault>
    ensures { result_map rule_text result
        ≡ zone_at fields.now.location (table_view fields.now.table.now) }
{
    let text = fields.text(Key::Zone)?;
    ZoneRule::read(text).ok_or(fields.fault(Key::Zone, Cause::NotAZoneRule))
}

/// The tables of a section: none where its key is missing (B4, B13).
fn section_at<'a>(fields: &Fields<'a>, key: Key, most: usize) -> Result<&'a [Value], FileFault>
    ensures { result_map (λ vs. items_view vs.now) result
        ≡ section_at most fields.now.location key (table_view fields.now.table.now) }
{
    match fields.optional_list(key)? {
        None => Ok(&[]),
        Some(items) => section_of(fields, key, most, items),
    }
}

fn section_of<'b>(
    fields: &Fields<'_>,
    key: Key,
    most: usize,
    items: &'b [Value],
) -> Result<&'b [Value], FileFault>
    ensures { result_map (λ vs. items_view vs.now) result
        ≡ section_of most fields.now.location key (items_view items.now) }
{
    fields.at_most(most, key, items)?;
    fields.all_tables(key, items)?;
    Ok(items)
}
