//! What is found of the names of panels, schedules and calendars, and of the last tick.
ghost use Rattle.std.specs.Prelude.{◌≡◌, ◌++◌, OnOk};
ghost use Rattle.std.specs.List.{flat_map};
ghost use Rattle.desk_adopt.specs.Findings.{has_calendar, has_panel, has_schedule};
ghost use Rattle.desk_adopt.specs.Findings.{of_calendar, of_last_tick, of_panel, of_schedule, unless};

use crate::finding::Finding;
use building::Building;
use local_times::local_time;
use points::Name;
use std::alloc::AllocError;

fn has_panel(building: &Building, name: &Name) -> bool
    ensures { result ≡ has_panel building.now name.now }
{
    building.find_panel(name).is_some()
}

fn has_schedule(building: &Building, name: &Name) -> bool
    ensures { result ≡ has_schedule building.now name.now }
{
    building.schedule_index(name).is_some()
}

fn has_calendar(building: &Building, name: &Name) -> bool
    ensures { result ≡ has_calendar building.now name.now }
{
    building.calendar_index(name).is_some()
}

// Adds a finding where something does not hold.
fn add_unless(findings: &mut Vec<Finding>, holds: bool, finding: Finding) -> Result<(), AllocError>
    ensures { OnOk result (findings.new.items ≡ findings.old.items ++ unless holds finding) }
{
    if !holds {
        findings.push(finding)?;
    }
    Ok(())
}

/// Adds the panels that the building lacks.
pub fn add_panels(
    findings: &mut Vec<Finding>,
    building: &Building,
    names: &[Name],
) -> Result<(), AllocError>
    ensures { OnOk result (findings.new.items ≡ findings.old.items ++ flat_map (of_panel building.now) names.now) }
{
    for name in names {
        let finding = Finding::UnknownPanel { panel: *name };
        add_unless(findings, has_panel(building, name), finding)?;
    }
    Ok(())
}

/// Adds the schedules that the building lacks.
pub fn add_schedules(
    findings: &mut Vec<Finding>,
    building: &Building,
    names: &[Name],
) -> Result<(), AllocError>
    ensures { OnOk result (findings.new.items ≡ findings.old.items ++ flat_map (of_schedule building.now) names.now) }
{
    for name in names {
        let finding = Finding::UnknownSchedule { schedule: *name };
        add_unless(findings, has_schedule(building, name), finding)?;
    }
    Ok(())
}

/// Adds the calendars that the building lacks.
pub fn add_calendars(
    findings: &mut Vec<Finding>,
    building: &Building,
    names: &[Name],
) -> Result<(), AllocError>
    ensures { OnOk result (findings.new.items ≡ findings.old.items ++ flat_map (of_calendar building.now) names.now) }
{
    for name in names {
        let finding = Finding::UnknownCalendar { calendar: *name };
        add_unless(findings, has_calendar(building, name), finding)?;
    }
    Ok(())
}

/// Adds the last tick, if the building's clock shows no time then.
pub fn add_last_tick(
    findings: &mut Vec<Finding>,
    building: &Building,
    last: Option<i64>,
) -> Result<(), AllocError>
    ensures { OnOk result (findings.new.items ≡ findings.old.items ++ of_last_tick building.now last) }
{
    match last {
        None => Ok(()),
        Some(moment) => {
            let shows = local_time(building.zone(), moment).is_some();
            add_unless(findings, shows, Finding::NoTime { moment })
        }
    }
}
