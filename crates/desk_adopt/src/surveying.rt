//! The survey of the tables beside a building.
ghost use Rattle.std.specs.Prelude.{◌≡◌, IfOk};
ghost use Rattle.std.specs.Result.{result_err};
ghost use Rattle.store.specs.Standing.{IsOpen, Reads};
ghost use Rattle.desk_adopt.specs.Findings.{findings_of};
ghost use Rattle.desk_adopt.specs.Surveyed.{AreHeld, HaveStood, IsSurvey};

use crate::finding::Finding;
use crate::holdings::Holdings;
use crate::names::{add_calendars, add_last_tick, add_panels, add_schedules};
use crate::place_findings::add_points;
use crate::reading::{count_entries, read_shown};
use building::Building;
use std::alloc::Global;
use store::{Names, Store, StoreFault, read_nexts};

/// What of the tables does not suit the building, and how much they hold.
#[derive(Drop)]
pub struct Survey {
    pub findings: Vec<Finding>,
    pub holdings: Holdings,
}

// How much the tables hold in which these names stand.
fn holdings_of<S: Store>(store: &mut S, names: &Names) -> Result<Holdings, StoreFault>
    requires { IsOpen (S.standing store.old) }
    ensures reads { Reads (result_err result) (S.standing store.old) (S.standing store.new) }
    ensures held { (S.standing store.new).is_honest
        → IfOk result (AreHeld (S.standing store.old).content.tables names.now) }
{
    let entries = count_entries(store, &names.calendars)?;
    Ok(Holdings {
        panels: names.panels.len(),
        points: names.points.len(),
        schedules: names.schedules.len(),
        entries,
    })
}

// What is found of the tables in which these names stand, with this last tick.
fn findings_of<S: Store>(
    alloc: Global,
    store: &mut S,
    building: &Building,
    names: &Names,
    last: Option<i64>,
) -> Result<Vec<Finding>, StoreFault>
    requires { IsOpen (S.standing store.old) }
    ensures reads { Reads (result_err result) (S.standing store.old) (S.standing store.new) }
    ensures found { (S.standing store.new).is_honest → IfOk result (λ findings. findings.items
        ≡ findings_of building.now (S.standing store.old).content.tables.places last names.now) }
{
    let mut findings = Vec::new(alloc);
    add_panels(&mut findings, building, &names.panels)?;
    add_points(&mut findings, store, building, &names.points)?;
    add_schedules(&mut findings, building, &names.schedules)?;
    add_calendars(&mut findings, building, &names.calendars)?;
    add_last_tick(&mut findings, building, last)?;
    Ok(findings)
}

/// Looks over the tables of a store beside a building, and lists exactly what does not suit it. A fault is reported as
/// the store reports it, so a row that is read and cannot stand is S5; where there is none, those of names, of the last
/// tick, of next numbers and of what schedules show can stand. The store is only read.
pub fn survey_tables<S: Store>(
    alloc: Global,
    store: &mut S,
    building: &Building,
) -> Result<Survey, StoreFault>
    ensures reads { Reads (result_err result) (S.standing store.old) (S.standing store.new) }
    ensures found { (S.standing store.new).is_honest → IfOk result (λ survey.
        IsSurvey building.now (S.standing store.old).content.tables survey.findings.items survey.holdings) }
    ensures stood { (S.standing store.new).is_honest → IfOk result (λ survey. HaveStood (S.standing store.old)) }
{
    let names = store.names()?;
    let last = store.last_tick()?;
    read_nexts(store, &names.panels)?;
    read_shown(store, &names.schedules)?;
    let holdings = holdings_of(store, &names)?;
    let findings = findings_of(alloc, store, building, &names, last)?;
    Ok(Survey { findings, holdings })
}
