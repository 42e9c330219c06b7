//! What is found of the places of points.
ghost use Rattle.std.specs.Prelude.{◌≡◌, ◌++◌, ◌≤◌, OnOk};
ghost use Rattle.std.specs.List.{flat_map};
ghost use Rattle.std.specs.Result.{result_err};
ghost use Rattle.store.specs.Standing.{IsOpen, Reads};
ghost use Rattle.desk_adopt.specs.Findings.{a_panel_writes, a_schedule_writes, is_target, is_written, may_relinquish, of_found, of_place, of_places, of_point, of_value};
ghost use Rattle.points.specs.Rights.{point_named};

use crate::finding::Finding;
use building::{Building, NamedSchedule};
use points::{Content, LOWEST_PRIORITY, Name, Panel, Point, PriorityArray};
use std::alloc::AllocError;
use store::{Store, StoreFault};

// Whether a schedule writes to the point at the priority.
fn is_target(schedule: &NamedSchedule, point: &Name, priority: u8) -> bool
    ensures { result ≡ is_target point.now priority schedule.now }
{
    schedule.priority == priority && schedule.targets.contains(point)
}

// Whether the panel may relinquish the place.
fn may_relinquish(building: &Building, panel: &Panel, point: &Name, priority: u8) -> bool
    ensures { result ≡ may_relinquish building.now.points point.now priority panel.now }
{
    let content = Content {
        point: *point,
        priority: i64::from(priority),
        value: None,
    };
    building.permit(panel, &content).is_ok()
}

fn a_schedule_writes(building: &Building, point: &Name, priority: u8) -> bool
    ensures { result ≡ a_schedule_writes building.now point.now priority }
{
    building
        .schedules()
        .iter()
        .any(|schedule| is_target(schedule, point, priority))
}

fn a_panel_writes(building: &Building, point: &Name, priority: u8) -> bool
    ensures { result ≡ a_panel_writes building.now point.now priority }
{
    building
        .panels()
        .iter()
        .any(|panel| may_relinquish(building, panel, point, priority))
}

/// Whether a schedule writes to the point at this priority, from 1 to 16, or a panel may.
pub fn is_written(building: &Building, point: &Name, priority: u8) -> bool
    ensures { result ≡ is_written building.now point.now priority }
{
    a_schedule_writes(building, point, priority) || a_panel_writes(building, point, priority)
}

// Adds what is found of a value in a place.
fn add_value(
    findings: &mut Vec<Finding>,
    building: &Building,
    point: &Point,
    priority: u8,
    value: i64,
) -> Result<(), AllocError>
    ensures { OnOk result (findings.new.items ≡ findings.old.items ++ of_value building.now point.now priority value) }
{
    if !is_written(building, &point.name, priority) {
        findings.push(Finding::NobodyWrites {
            point: point.name,
            priority,
        })?;
    }
    if !point.kind.admits(value) {
        findings.push(Finding::OutsideKind {
            point: point.name,
            priority,
            value,
        })?;
    }
    Ok(())
}

// Adds what is found of a place.
fn add_place(
    findings: &mut Vec<Finding>,
    building: &Building,
    point: &Point,
    priority: u8,
    value: Option<i64>,
) -> Result<(), AllocError>
    ensures { OnOk result (findings.new.items ≡ findings.old.items ++ of_place building.now point.now priority value) }
{
    match value {
        Some(value) => add_value(findings, building, point, priority, value),
        None => Ok(()),
    }
}

/// Adds what is found of the places of a point of the building, from 1 to 16.
pub fn add_places(
    findings: &mut Vec<Finding>,
    building: &Building,
    point: &Point,
    places: &PriorityArray,
) -> Result<(), AllocError>
    ensures { OnOk result (findings.new.items ≡ findings.old.items ++ of_places building.now point.now places.now) }
{
    for priority in 1..LOWEST_PRIORITY + 1 {
        add_place(
            findings,
            building,
            point,
            priority,
            places.value_at(priority),
        )?;
    }
    Ok(())
}

// Adds what is found of a point of this name with these places.
fn add_found(
    findings: &mut Vec<Finding>,
    building: &Building,
    name: &Name,
    places: &PriorityArray,
) -> Result<(), AllocError>
    ensures { OnOk result (findings.new.items ≡ findings.old.items
        ++ of_found building.now name.now places.now (point_named building.now.points name.now)) }
{
    match building.find_point(name) {
        Some(point) => add_places(findings, building, point, places),
        None => {
            findings.push(Finding::UnknownPoint { point: *name })?;
            Ok(())
        }
    }
}

// Adds what is found of a point that stands in the tables.
fn add_point<S: Store>(
    findings: &mut Vec<Finding>,
    store: &mut S,
    building: &Building,
    name: &Name,
) -> Result<(), StoreFault>
    requires { IsOpen (S.standing store.old) }
    ensures reads { Reads (result_err result) (S.standing store.old) (S.standing store.new) }
    ensures found { (S.standing store.new).is_honest → OnOk result (findings.new.items
        ≡ findings.old.items ++ of_point building.now (S.standing store.old).content.tables.places name.now) }
{
    let places = store.array(name)?;
    add_found(findings, building, name, &places)?;
    Ok(())
}

/// Adds what is found of the points that stand in the tables.
pub fn add_points<S: Store>(
    findings: &mut Vec<Finding>,
    store: &mut S,
    building: &Building,
    names: &[Name],
) -> Result<(), StoreFault>
    requires { IsOpen (S.standing store.old) }
    ensures reads { Reads (result_err result) (S.standing store.old) (S.standing store.new) }
    ensures found { (S.standing store.new).is_honest → OnOk result (findings.new.items
        ≡ findings.old.items ++ flat_map (of_point building.now (S.standing store.old).content.tables.places) names.now) }
{
    for name in names {
        add_point(findings, store, building, name)?;
    }
    Ok(())
}
