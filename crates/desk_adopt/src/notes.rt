//! What is noted of the earlier tables.
ghost use Rattle.std.specs.Prelude.{◌≡◌, ◌++◌, IfOk, OnOk, option_copied};
ghost use Rattle.std.specs.List.{flat_map};
ghost use Rattle.std.specs.Result.{result_err};
ghost use Rattle.desk_adopt.specs.Notes.{AreNotes, counts_in, has_former, left_calendar, left_of, left_panel, left_point, left_schedule, left_values};
ghost use Rattle.desk_adopt.specs.Notes.{in_any, name_now, reason_of, renamed_in, renamed_of, unless_same, unused_of};
ghost use Rattle.points.specs.NameIndex.{is_among};
ghost use Rattle.store.specs.Standing.{IsOpen, Reads};

use crate::finding::Finding;
use crate::place_findings::add_places;
use crate::renamed_name::{NameKind, RenamedName};
use crate::renaming::{Renaming, former_name};
use crate::sections::{Section, Sections, counts, is_among, sections_of};
use crate::unused_renaming::{UnusedReason, UnusedRenaming};
use building::Building;
use points::Name;
use std::alloc::{AllocError, Global};
use store::{Store, StoreFault};

/// What is noted while a building takes tables along.
#[derive(Drop)]
pub struct Notes {
    /// What has another name in the building: panels, points, schedules and calendars, each by rising name.
    pub renamed: Vec<RenamedName>,
    /// What stays behind, in the same order, and why.
    pub left: Vec<Finding>,
    /// The renamings that count nowhere, and why.
    pub unused: Vec<UnusedRenaming>,
}

/// Whether a name of the building has this one in the earlier tables.
fn has_former(renamings: &[Renaming], old: &Name, name: &Name) -> bool
    ensures { result ≡ has_former renamings.now old.now name.now }
{
    match former_name(renamings, name) {
        Some(former) => former == *old,
        None => false,
    }
}

/// The name that one of the earlier tables has in the building.
fn name_now<'a>(section: &'a Section, old: &Name) -> Option<&'a Name>
    ensures { option_copied result ≡ name_now section.now old.now }
{
    section
        .has
        .iter()
        .find(|name| has_former(&section.renamings, old, name))
}

/// Adds that a name is another one now, unless it is the same or none.
fn add_renamed_name(
    renamed: &mut Vec<RenamedName>,
    kind: NameKind,
    old: &Name,
    name: Option<&Name>,
) -> Result<(), AllocError>
    ensures { OnOk result (renamed.new.items ≡ renamed.old.items ++ unless_same kind old.now (option_copied name.entry)) }
{
    if let Some(name) = name
        && *old != *name
    {
        renamed.push(RenamedName {
            kind,
            old: *old,
            new: *name,
        })?;
    }
    Ok(())
}

/// Adds the names of a section that are other ones now.
fn add_renamed(
    renamed: &mut Vec<RenamedName>,
    kind: NameKind,
    section: &Section,
) -> Result<(), AllocError>
    ensures { OnOk result (renamed.new.items ≡ renamed.old.items ++ renamed_in kind section.now) }
{
    for old in &section.stand {
        add_renamed_name(renamed, kind, old, name_now(section, old))?;
    }
    Ok(())
}

/// What has another name.
fn renamed_of(alloc: Global, sections: &Sections) -> Result<Vec<RenamedName>, AllocError>
    ensures { IfOk result (λ it. it.items ≡ renamed_of sections.now) }
{
    let mut all = Vec::new(alloc);
    add_renamed(&mut all, NameKind::Panel, &sections.panels)?;
    add_renamed(&mut all, NameKind::Point, &sections.points)?;
    add_renamed(&mut all, NameKind::Schedule, &sections.schedules)?;
    add_renamed(&mut all, NameKind::Calendar, &sections.calendars)?;
    Ok(all)
}

/// Adds the panels that stay behind.
fn add_left_panels(left: &mut Vec<Finding>, section: &Section) -> Result<(), AllocError>
    ensures { OnOk result (left.new.items ≡ left.old.items ++ flat_map (left_panel section.now) section.now.stand.items) }
{
    for old in &section.stand {
        if name_now(section, old).is_none() {
            left.push(Finding::UnknownPanel { panel: *old })?;
        }
    }
    Ok(())
}

/// Adds the schedules that stay behind.
fn add_left_schedules(left: &mut Vec<Finding>, section: &Section) -> Result<(), AllocError>
    ensures { OnOk result (left.new.items ≡ left.old.items ++ flat_map (left_schedule section.now) section.now.stand.items) }
{
    for old in &section.stand {
        if name_now(section, old).is_none() {
            left.push(Finding::UnknownSchedule { schedule: *old })?;
        }
    }
    Ok(())
}

/// Adds the calendars that stay behind.
fn add_left_calendars(left: &mut Vec<Finding>, section: &Section) -> Result<(), AllocError>
    ensures { OnOk result (left.new.items ≡ left.old.items ++ flat_map (left_calendar section.now) section.now.stand.items) }
{
    for old in &section.stand {
        if name_now(section, old).is_none() {
            left.push(Finding::UnknownCalendar { calendar: *old })?;
        }
    }
    Ok(())
}

/// Adds a point that stays behind, or the values in the places of one that the building has.
fn add_left_point<S: Store>(
    left: &mut Vec<Finding>,
    store: &mut S,
    building: &Building,
    old: &Name,
    name: Option<&Name>,
) -> Result<(), StoreFault>
    requires { IsOpen (S.standing store.old) }
    ensures reads { Reads (result_err result) (S.standing store.old) (S.standing store.new) }
    ensures left { (S.standing store.new).is_honest → OnOk result (left.new.items ≡ left.old.items
        ++ left_values building.now old.now ((S.standing store.old).content.tables.places old.now) (option_copied name.entry)) }
{
    if let Some(name) = name
        && let Some(point) = building.find_point(name)
    {
        let array = store.array(old)?;
        add_places(left, building, point, &array)?;
        return Ok(());
    }
    left.push(Finding::UnknownPoint { point: *old })?;
    Ok(())
}

/// Adds the points that stay behind, and of the others the values in their places that do.
fn add_left_points<S: Store>(
    left: &mut Vec<Finding>,
    store: &mut S,
    building: &Building,
    section: &Section,
) -> Result<(), StoreFault>
    requires { IsOpen (S.standing store.old) }
    ensures reads { Reads (result_err result) (S.standing store.old) (S.standing store.new) }
    ensures left { (S.standing store.new).is_honest → OnOk result (left.new.items ≡ left.old.items
        ++ flat_map (left_point building.now (S.standing store.old).content.tables.places section.now) section.now.stand.items) }
{
    for old in &section.stand {
        let name = name_now(section, old);
        add_left_point(left, store, building, old, name)?;
    }
    Ok(())
}

/// What stays behind of the tables of a store.
fn left_of<S: Store>(
    alloc: Global,
    store: &mut S,
    building: &Building,
    sections: &Sections,
) -> Result<Vec<Finding>, StoreFault>
    requires { IsOpen (S.standing store.old) }
    ensures reads { Reads (result_err result) (S.standing store.old) (S.standing store.new) }
    ensures left { (S.standing store.new).is_honest → IfOk result (λ left. left.items
        ≡ left_of building.now sections.now (S.standing store.old).content.tables.places) }
{
    let mut left = Vec::new(alloc);
    add_left_panels(&mut left, &sections.panels)?;
    add_left_points(&mut left, store, building, &sections.points)?;
    add_left_schedules(&mut left, &sections.schedules)?;
    add_left_calendars(&mut left, &sections.calendars)?;
    Ok(left)
}

fn counts_in(section: &Section, renaming: &Renaming) -> bool
    ensures { result ≡ counts_in renaming.now section.now }
{
    counts(&section.has, &section.stand, renaming)
}

/// Whether a renaming counts anywhere.
fn counts_anywhere(sections: &Sections, renaming: &Renaming) -> bool
    ensures { result ≡ in_any (counts_in renaming.now) sections.now }
{
    counts_in(&sections.panels, renaming)
        || counts_in(&sections.points, renaming)
        || counts_in(&sections.schedules, renaming)
        || counts_in(&sections.calendars, renaming)
}

/// Whether something of the name stands in the tables.
fn stands(sections: &Sections, name: &Name) -> bool
    ensures { result ≡ in_any (λ section. is_among name.now section.stand.items) sections.now }
{
    is_among(name, &sections.panels.stand)
        || is_among(name, &sections.points.stand)
        || is_among(name, &sections.schedules.stand)
        || is_among(name, &sections.calendars.stand)
}

/// Why a renaming that counts nowhere does not.
fn reason_of(sections: &Sections, renaming: &Renaming) -> UnusedReason
    ensures { result ≡ reason_of sections.now renaming.now }
{
    if stands(sections, &renaming.old) {
        UnusedReason::OtherSection
    } else {
        UnusedReason::NotInTables
    }
}

/// The renamings that count nowhere.
fn unused_of(
    alloc: Global,
    renamings: &[Renaming],
    sections: &Sections,
) -> Result<Vec<UnusedRenaming>, AllocError>
    ensures { IfOk result (λ unused. unused.items ≡ unused_of renamings.now sections.now) }
{
    let mut unused = Vec::new(alloc);
    for renaming in renamings {
        if !counts_anywhere(sections, renaming) {
            unused.push(UnusedRenaming {
                renaming: *renaming,
                reason: reason_of(sections, renaming),
            })?;
        }
    }
    Ok(unused)
}

/// Exactly what is to be noted of the tables of a store where a building takes them along with these renamings: what
/// has another name, what stays behind, and the renamings that count nowhere. The store is only read.
pub fn adoption_notes<S: Store>(
    alloc: Global,
    building: &Building,
    renamings: &[Renaming],
    store: &mut S,
) -> Result<Notes, StoreFault>
    ensures reads { Reads (result_err result) (S.standing store.old) (S.standing store.new) }
    ensures noted { (S.standing store.new).is_honest → IfOk result (λ it. AreNotes building.now renamings.now
        (S.standing store.old).content.tables it.renamed.items it.left.items it.unused.items) }
{
    let sections = sections_of(alloc, building, renamings, store)?;
    let left = left_of(alloc, store, building, &sections)?;
    let renamed = renamed_of(alloc, &sections)?;
    let unused = unused_of(alloc, renamings, &sections)?;
    Ok(Notes {
        renamed,
        left,
        unused,
    })
}
