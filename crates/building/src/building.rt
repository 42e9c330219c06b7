//! The building that a file names.

ghost use Rattle.std.specs.Prelude.{◌≡◌, IsTrue, find, map, option_copied, position};
ghost use Rattle.std.specs.List.{list_all};
ghost use Rattle.std.specs.Result.{result_err};
ghost use Rattle.std.specs.Str.{bytes_eq};
ghost use Rattle.toml.specs.View.{table_view};
ghost use Rattle.points.specs.Rights.{point_named, rule_of};
ghost use Rattle.building.specs.Answers.{Answers};
ghost use Rattle.points.specs.FaultSteps.{result_map};
ghost use Rattle.building.specs.BuildingFile.{building_of, contents_in, with_schedules};
ghost use Rattle.building.specs.TopTable.{top_of};
ghost use Rattle.building.specs.PanelTable.{is_sound_panel};
ghost use Rattle.building.specs.PointTable.{is_sound_point};
ghost use Rattle.building.specs.ScheduleTable.{is_sound_schedule};
ghost use Rattle.building.specs.Building.{contents_of};
ghost use Rattle.building.specs.Roster.{are_distinct};

use crate::building_refusal::BuildingFault;
use crate::named_calendar::NamedCalendar;
use crate::named_schedule::NamedSchedule;
use crate::parsed_file::tree_of;
use crate::roster::Roster;
use crate::sections::{calendars_in, panels_in, points_in, schedules_in};
use crate::top_table::TopTable;
use local_times::ZoneRule;
use points::{Content, Name, Panel, Point, Rule, permit_for};
use std::alloc::Global;
use std::marker::Model;
use toml::Table;

/// The building of a file: its time zone, and its points, panels, calendars and schedules in file order.
/// In it each name stands once in its section, references exist, values lie in their kinds, and nothing is
/// written at 6.
#[derive(Drop)]
pub struct Building {
    zone: ZoneRule,
    points: Roster<Point>,
    panels: Roster<Panel>,
    calendars: Roster<NamedCalendar>,
    schedules: Roster<NamedSchedule>,
}

impl Model for Building {
    ghost use Rattle.building.specs.Building.{IsSound, Building};

    ghost Value = { Building };

    ghost view = { λ building. record {
      zone = building.zone;
      points = building.points;
      panels = building.panels;
      calendars = building.calendars;
      schedules = building.schedules;
    } };

    ghost invariant = { λ building. IsSound building.points building.panels building.calendars building.schedules };
}

impl Building {
    /// Reads the building of a TOML file, or answers its first fault.
    #[tactic(auto, unfolding(crate::specs::BuildingFile::building_of))]
    pub fn read(alloc: Global, bytes: &[u8]) -> Result<Building, BuildingFault>
        ensures { Answers (building_of bytes.now) (result_map contents_of result) }
    {
        let tree = tree_of(alloc, bytes)?;
        Building::of_tree(alloc, &tree)
    }

    /// The building of a file's tables.
    #[tactic(auto, unfolding(crate::specs::BuildingFile::contents_in))]
    fn of_tree(alloc: Global, tree: &Table) -> Result<Building, BuildingFault>
        ensures { Answers (contents_in (table_view tree.now)) (result_map contents_of result) }
    {
        let top = TopTable::read(tree)?;
        let points = points_in(alloc, top.points)?;
        let panels = panels_in(alloc, &points, top.panels)?;
        let calendars = calendars_in(alloc, top.calendars)?;
        with_schedules(alloc, top, points, panels, calendars)
    }

    /// No two points, panels, calendars or schedules have one name: this holds of each building, and nothing is done.
    pub fn names_are_distinct(&self)
        ensures points { IsTrue (are_distinct (map (λ point. point.name) self.now.points)) }
        ensures panels { IsTrue (are_distinct (map (λ panel. panel.name) self.now.panels)) }
        ensures calendars { IsTrue (are_distinct (map (λ calendar. calendar.name) self.now.calendars)) }
        ensures schedules { IsTrue (are_distinct (map (λ schedule. schedule.name) self.now.schedules)) }
    {
        let _ = &self.zone;
    }

    /// The rule of the building's time zone.
    pub fn zone(&self) -> &ZoneRule
        ensures { result.now ≡ self.now.zone }
    {
        &self.zone
    }

    /// The points, in file order.
    pub fn points(&self) -> &[Point]
        ensures { result.now ≡ self.now.points }
    {
        self.points.as_slice()
    }

    /// The panels, in file order.
    pub fn panels(&self) -> &[Panel]
        ensures { result.now ≡ self.now.panels }
    {
        self.panels.as_slice()
    }

    /// The calendars, in file order.
    pub fn calendars(&self) -> &[NamedCalendar]
        ensures { result.now ≡ self.now.calendars }
    {
        self.calendars.as_slice()
    }

    /// The schedules, in file order.
    pub fn schedules(&self) -> &[NamedSchedule]
        ensures schedules { result.now ≡ self.now.schedules }
        ensures sound { IsTrue (list_all (is_sound_schedule self.now.points self.now.calendars) self.now.schedules) }
    {
        self.schedules.as_slice()
    }

    /// The point of a name.
    pub fn find_point(&self, name: &Name) -> Option<&Point>
        ensures { option_copied result ≡ point_named self.now.points name.now }
    {
        self.points.find(name)
    }

    /// The panel of a name.
    pub fn find_panel(&self, name: &Name) -> Option<&Panel>
        ensures { option_copied result ≡ find (λ panel. bytes_eq panel.name name.now) self.now.panels }
    {
        self.panels.find(name)
    }

    /// The index of the calendar of a name, from 0.
    pub fn calendar_index(&self, name: &Name) -> Option<usize>
        ensures { result ≡ position (λ calendar. bytes_eq calendar.name name.now) self.now.calendars }
    {
        self.calendars.position(name)
    }

    /// The index of the schedule of a name, from 0.
    pub fn schedule_index(&self, name: &Name) -> Option<usize>
        ensures { result ≡ position (λ schedule. bytes_eq schedule.name name.now) self.now.schedules }
    {
        self.schedules.position(name)
    }

    /// Whether the panel may write the content, or the first rule against it. Takes no memory.
    pub fn permit(&self, panel: &Panel, content: &Content) -> Result<(), Rule>
        ensures { result_err result ≡ rule_of self.now.points panel.now content.now }
    {
        permit_for(self.find_point(&content.point), panel, content)
    }
}

/// The building of the sections before the schedules, and of these.
fn with_schedules(
    alloc: Global,
    top: TopTable<'_>,
    points: Roster<Point>,
    panels: Roster<Panel>,
    calendars: Roster<NamedCalendar>,
) -> Result<Building, BuildingFault>
    requires points { IsTrue (list_all is_sound_point points) }
    requires panels { IsTrue (list_all (is_sound_panel points) panels) }
    ensures { Answers (with_schedules (top_of top.entry) points panels calendars) (result_map contents_of result) }
{
    let schedules = schedules_in(alloc, &points, &calendars, top.schedules)?;
    points.has_distinct_names();
    panels.has_distinct_names();
    calendars.has_distinct_names();
    schedules.has_distinct_names();
    Ok(Building {
        zone: top.zone,
        points,
        panels,
        calendars,
        schedules,
    })
}
