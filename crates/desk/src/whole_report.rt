//! The report of a day.
ghost use Rattle.std.specs.Prelude.{◌≡◌, ◌++◌, IfOk, List, OnOk, string_bytes};
ghost use Rattle.std.specs.List.{flat_map};
ghost use Rattle.std.specs.Result.{result_err};
ghost use Rattle.desk.specs.DayReport.{line_of_point, report_text};
ghost use Rattle.desk.specs.ReportLines.{schedule_lines};
ghost use Rattle.desk_settling.specs.Calendars.{Tells};
ghost use Rattle.store.specs.Standing.{IsOpen, Reads};
ghost use Rattle.points.specs.Texts.{Text};

use crate::report_lines::{day_line, push_schedule};
use building::{Building, NamedSchedule};
use dates::Day;
use desk_settling::calendars_today;
use points::{Point, push_point_line};
use sched::Calendar;
use std::alloc::{AllocError, Global};
use store::{Store, StoreFault};

fn push_schedules(
    alloc: Global,
    text: &mut String,
    schedules: &[NamedSchedule],
    calendars: &[Calendar],
    day: Day,
) -> Result<(), AllocError>
    ensures { OnOk result (string_bytes text.new ≡ string_bytes text.old ++ flat_map (schedule_lines calendars.now day) schedules.now) }
{
    for schedule in schedules {
        push_schedule(alloc, text, schedule, calendars, day)?;
    }
    Ok(())
}

#[tactic(auto, unfolding(crate::specs::DayReport::line_of_point))]
fn push_point<S: Store>(store: &mut S, text: &mut String, point: &Point) -> Result<(), StoreFault>
    requires open { IsOpen (S.standing store.old) }
    ensures reads { Reads (result_err result) (S.standing store.old) (S.standing store.new) }
    ensures line { (S.standing store.new).is_honest → OnOk result (string_bytes text.new
        ≡ string_bytes text.old ++ line_of_point (S.standing store.old).content.tables.places point.now) }
{
    let places = store.array(&point.name)?;
    let (present, priority) = places.present(point.relinquish_default);
    push_point_line(text, &point.name, present, priority)?;
    Ok(())
}

fn push_points<S: Store>(
    store: &mut S,
    text: &mut String,
    points: &[Point],
) -> Result<(), StoreFault>
    requires open { IsOpen (S.standing store.old) }
    ensures reads { Reads (result_err result) (S.standing store.old) (S.standing store.new) }
    ensures lines { (S.standing store.new).is_honest → OnOk result (string_bytes text.new
        ≡ string_bytes text.old ++ flat_map (line_of_point (S.standing store.old).content.tables.places) points.now) }
{
    for point in points {
        push_point(store, text, point)?;
    }
    Ok(())
}

/// The report of a day over the tables of a store: for each schedule whether it is active and when it has which
/// value, with what was imported; and for each point what it presents now. The store is only read.
pub fn day_report<S: Store>(
    alloc: Global,
    store: &mut S,
    building: &Building,
    day: Day,
) -> Result<String, StoreFault>
    ensures reads { Reads (result_err result) (S.standing store.old) (S.standing store.new) }
    ensures text { (S.standing store.new).is_honest → (imported : Text → List Text)
        → Tells (S.standing store.old).content.tables.imported imported
        → IfOk result (λ text. string_bytes text
        ≡ report_text building.now imported (S.standing store.old).content.tables.places day) }
{
    // a store that is shut answers before all else
    let _last = store.last_tick()?;
    let today = calendars_today(alloc, store, building, &[], day)?;
    let mut text = day_line(alloc, day)?;
    push_schedules(
        alloc,
        &mut text,
        building.schedules(),
        today.as_slice(),
        day,
    )?;
    push_points(store, &mut text, building.points())?;
    Ok(text)
}
