//! The sections of a building file.

ghost use Rattle.std.specs.Prelude.{◌≡◌, IfOk, IsTrue};
ghost use Rattle.std.specs.List.{list_all};
ghost use Rattle.toml.specs.View.{items_view};
ghost use Rattle.building.specs.Answers.{Answers};
ghost use Rattle.building.specs.PanelTable.{is_sound_panel};
ghost use Rattle.building.specs.PointTable.{is_sound_point};
ghost use Rattle.building.specs.ScheduleTable.{is_sound_schedule};
ghost use Rattle.building.specs.BuildingFile.{calendars_in, panels_in, points_in, schedules_in};

use crate::building_refusal::BuildingFault;
use crate::calendar_table::CalendarTable;
use crate::key::Key;
use crate::named_calendar::NamedCalendar;
use crate::named_schedule::NamedSchedule;
use crate::panel_table::PanelTable;
use crate::point_table::PointTable;
use crate::roster::Roster;
use crate::schedule_table::ScheduleTable;
use crate::section::Section;
use crate::section_tables::read_section;
use points::{Panel, Point};
use std::alloc::Global;
use toml::Value;

/// The points of the file.
pub(crate) fn points_in(alloc: Global, items: &[Value]) -> Result<Roster<Point>, BuildingFault>
    ensures answers { Answers (points_in (items_view items.now)) result }
    ensures sound { IfOk result (λ points. IsTrue (list_all is_sound_point points)) }
{
    let known = [
        Key::Name,
        Key::Kind,
        Key::States,
        Key::Low,
        Key::High,
        Key::Default,
    ];
    read_section(alloc, &PointTable, Section::Point, &known, items)
}

/// The panels of the file, beside the points.
pub(crate) fn panels_in(
    alloc: Global,
    points: &Roster<Point>,
    items: &[Value],
) -> Result<Roster<Panel>, BuildingFault>
    ensures answers { Answers (panels_in points.now (items_view items.now)) result }
    ensures sound { IfOk result (λ panels. IsTrue (list_all (is_sound_panel points.now) panels)) }
{
    let known = [Key::Name, Key::Points, Key::Priorities];
    let reader = PanelTable { alloc, points };
    read_section(alloc, &reader, Section::Panel, &known, items)
}

/// The calendars of the file.
pub(crate) fn calendars_in(
    alloc: Global,
    items: &[Value],
) -> Result<Roster<NamedCalendar>, BuildingFault>
    ensures { Answers (calendars_in (items_view items.now)) result }
{
    let known = [Key::Name, Key::Entries];
    let reader = CalendarTable { alloc };
    read_section(alloc, &reader, Section::Calendar, &known, items)
}

/// The schedules of the file, beside the points and the calendars.
pub(crate) fn schedules_in(
    alloc: Global,
    points: &Roster<Point>,
    calendars: &Roster<NamedCalendar>,
    items: &[Value],
) -> Result<Roster<NamedSchedule>, BuildingFault>
    ensures answers { Answers (schedules_in points.now calendars.now (items_view items.now)) result }
    ensures sound { IfOk result (λ schedules. IsTrue
        (list_all (is_sound_schedule points.now calendars.now) schedules)) }
{
    let known = [
        Key::Name,
        Key::Period,
        Key::Priority,
        Key::Targets,
        Key::Default,
        Key::Weekly,
        Key::Exception,
        Key::OnLeave,
    ];
    read_section(
        alloc,
        &ScheduleTable {
            alloc,
            points: &*points,
            calendars: &*calendars,
        },
        Section::Schedule,
        &known,
        items,
    )
}
