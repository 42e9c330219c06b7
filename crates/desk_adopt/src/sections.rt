//! The names of each section, in a building and in tables, and the renamings that count there.
ghost use Rattle.std.specs.Prelude.{◌≡◌, filter, IfOk, option_copied};
ghost use Rattle.std.specs.List.{list_any};
ghost use Rattle.std.specs.Result.{result_err};
ghost use Rattle.std.specs.Str.{bytes_eq};
ghost use Rattle.desk_adopt.specs.Sections.{AreSections, calendar_names, counts, joined, joined_in, joins, panel_names, point_names, schedule_names};
ghost use Rattle.points.specs.NameIndex.{is_among};
ghost use Rattle.store.specs.Standing.{Reads};

use crate::renaming::Renaming;
use building::Building;
use points::Name;
use std::alloc::{AllocError, Global};
use store::{Names, Store, StoreFault};

/// A section: the panels, the points, the schedules or the calendars.
#[derive(Drop)]
pub struct Section {
    /// The names that the building has, in file order.
    pub has: Vec<Name>,
    /// Those of which something stands in the tables, by rising name.
    pub stand: Vec<Name>,
    /// The renamings that count here: of one of these names to one of those.
    pub renamings: Vec<Renaming>,
}

/// The four sections.
#[derive(Drop)]
pub struct Sections {
    pub panels: Section,
    pub points: Section,
    pub schedules: Section,
    pub calendars: Section,
}

fn panel_names(alloc: Global, building: &Building) -> Result<Vec<Name>, AllocError>
    ensures { IfOk result (λ names. names.items ≡ panel_names building.now) }
{
    let mut names = Vec::new(alloc);
    for panel in building.panels() {
        names.push(panel.name)?;
    }
    Ok(names)
}

fn point_names(alloc: Global, building: &Building) -> Result<Vec<Name>, AllocError>
    ensures { IfOk result (λ names. names.items ≡ point_names building.now) }
{
    let mut names = Vec::new(alloc);
    for point in building.points() {
        names.push(point.name)?;
    }
    Ok(names)
}

fn schedule_names(alloc: Global, building: &Building) -> Result<Vec<Name>, AllocError>
    ensures { IfOk result (λ names. names.items ≡ schedule_names building.now) }
{
    let mut names = Vec::new(alloc);
    for schedule in building.schedules() {
        names.push(schedule.name)?;
    }
    Ok(names)
}

fn calendar_names(alloc: Global, building: &Building) -> Result<Vec<Name>, AllocError>
    ensures { IfOk result (λ names. names.items ≡ calendar_names building.now) }
{
    let mut names = Vec::new(alloc);
    for calendar in building.calendars() {
        names.push(calendar.name)?;
    }
    Ok(names)
}

pub fn is_among(name: &Name, names: &[Name]) -> bool
    ensures { result ≡ is_among name.now names.now }
{
    names.contains(name)
}

/// Whether a renaming is of a name that stands in the tables, to one that the building has.
pub fn counts(has: &[Name], stand: &[Name], renaming: &Renaming) -> bool
    ensures { result ≡ counts has.now stand.now renaming.now }
{
    is_among(&renaming.old, stand) && is_among(&renaming.new, has)
}

/// Those of the renamings that count.
fn counting(
    alloc: Global,
    has: &[Name],
    stand: &[Name],
    renamings: &[Renaming],
) -> Result<Vec<Renaming>, AllocError>
    ensures { IfOk result (λ it. it.items ≡ filter (counts has.now stand.now) renamings.now) }
{
    let mut counting = Vec::new(alloc);
    for renaming in renamings {
        if counts(has, stand, renaming) {
            counting.push(*renaming)?;
        }
    }
    Ok(counting)
}

impl Section {
    /// The section with these names of the building, and those that stand in the tables.
    fn new(
        alloc: Global,
        has: Vec<Name>,
        stand: Vec<Name>,
        renamings: &[Renaming],
    ) -> Result<Section, AllocError>
        ensures has { IfOk result (λ it. it.has.items ≡ has.items) }
        ensures stand { IfOk result (λ it. it.stand.items ≡ stand.items) }
        ensures counting { IfOk result (λ it. it.renamings.items ≡ filter (counts has.items stand.items) renamings.now) }
    {
        let renamings = counting(alloc, &has, &stand, renamings)?;
        Ok(Section {
            has,
            stand,
            renamings,
        })
    }

    fn is_renamed(&self, name: &Name) -> bool
        ensures { result ≡ list_any (λ it. bytes_eq it.old name.now) self.now.renamings.items }
    {
        self.renamings.iter().any(|it| it.old == *name)
    }

    /// Whether a renaming is to a name that stands in the tables too, and is not renamed itself.
    fn joins(&self, renaming: &Renaming) -> bool
        ensures { result ≡ joins self.now renaming.now }
    {
        is_among(&renaming.new, &self.stand) && !self.is_renamed(&renaming.new)
    }

    /// The first renaming that counts and would make one thing of two.
    fn joined(&self) -> Option<&Renaming>
        ensures { option_copied result ≡ joined_in self.now }
    {
        self.renamings.iter().find(|it| self.joins(it))
    }
}

impl Sections {
    /// The first renaming of panels that would make one thing of two, or else of points, of schedules, of calendars.
    pub fn joined(&self) -> Option<&Renaming>
        ensures { option_copied result ≡ joined self.now }
    {
        match self.panels.joined() {
            Some(renaming) => Some(renaming),
            None => match self.points.joined() {
                Some(renaming) => Some(renaming),
                None => match self.schedules.joined() {
                    Some(renaming) => Some(renaming),
                    None => self.calendars.joined(),
                },
            },
        }
    }
}

/// The sections of a building and of the tables of a store, which is only read.
pub fn sections_of<S: Store>(
    alloc: Global,
    building: &Building,
    renamings: &[Renaming],
    store: &mut S,
) -> Result<Sections, StoreFault>
    ensures reads { Reads (result_err result) (S.standing store.old) (S.standing store.new) }
    ensures sections { (S.standing store.new).is_honest
        → IfOk result (AreSections building.now renamings.now (S.standing store.old).content.tables) }
{
    let Names {
        panels,
        points,
        schedules,
        calendars,
    } = store.names()?;
    Ok(Sections {
        panels: Section::new(alloc, panel_names(alloc, building)?, panels, renamings)?,
        points: Section::new(alloc, point_names(alloc, building)?, points, renamings)?,
        schedules: Section::new(
            alloc,
            schedule_names(alloc, building)?,
            schedules,
            renamings,
        )?,
        calendars: Section::new(
            alloc,
            calendar_names(alloc, building)?,
            calendars,
            renamings,
        )?,
    })
}
