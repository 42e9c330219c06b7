//! The tables of an earlier building are taken along into those of this one.
ghost use Rattle.std.specs.Prelude.{◌≡◌, true, None, IfOk, IfErr, OnOk};
ghost use Rattle.std.specs.List.{All};
ghost use Rattle.std.specs.Result.{result_err};
ghost use Rattle.desk_adopt.specs.Adopted.{AreMoved, IsAdopted};
ghost use Rattle.desk_adopt.specs.Faults.{read_fault, IsCause, IsLeft, IsMade};
ghost use Rattle.store.specs.Change.{IsPlace, with_change};
ghost use Rattle.store.specs.Standing.{Reads, sound};
ghost use Rattle.store.specs.Tables.{no_tables};

use crate::calendars::adopted_entries;
use crate::panels::{adopted_nexts, adopted_rows};
use crate::places::adopted_places;
use crate::renaming::Renaming;
use crate::sections::{Sections, sections_of};
use building::Building;
use std::alloc::Global;
use store::{Change, Store, StoreFault};
use store_copy::can_stand;

/// Why nothing was taken along.
#[derive(Clone, Copy, Debug)]
pub enum AdoptFault {
    /// The earlier tables could not be read.
    Old(StoreFault),
    /// By this renaming two things of the earlier tables would be one.
    Joined(Renaming),
    /// A number or an answer of the earlier tables is out of its range.
    OutOfRange,
    /// The new tables could not be written.
    New(StoreFault),
}

/// What is taken along of the tables of a store, by the renamings that count, as one change of empty tables.
fn read_change<S: Store>(
    alloc: Global,
    store: &mut S,
    building: &Building,
    sections: &Sections,
) -> Result<Change, StoreFault>
    ensures reads { Reads (result_err result) (S.standing store.old) (S.standing store.new) }
    ensures moved { (S.standing store.new).is_honest → IfOk result (λ change.
        AreMoved building.now sections.now (S.standing store.old).content.tables (with_change change no_tables)) }
    ensures are_places { IfOk result (λ change. All IsPlace change.places.items) }
{
    let panels = &sections.panels.renamings;
    let last_tick = store.last_tick()?;
    let nexts = adopted_nexts(alloc, store, panels, building.panels())?;
    let rows = adopted_rows(alloc, store, panels, building.panels())?;
    let places = adopted_places(alloc, store, building, &sections.points.renamings)?;
    let calendars = &sections.calendars.renamings;
    let imported = adopted_entries(alloc, store, calendars, building.calendars())?;
    Ok(Change {
        nexts,
        rows,
        dropped: Vec::new(alloc),
        places,
        shown: Vec::new(alloc),
        imported,
        last_tick,
    })
}

/// Takes along what a building has in the tables of an earlier one, with the names that changed since: the second store
/// gets it in one commit. The first is only read. A renaming counts in the sections alone in which its old name stands
/// in the tables and its new one in the building; one by which two things of the tables would be one is reported.
pub fn adopt<S: Store, T: Store>(
    alloc: Global,
    building: &Building,
    renamings: &[Renaming],
    from: &mut S,
    into: &mut T,
) -> Result<(), AdoptFault>
    ensures reads { Reads (read_fault result) (S.standing from.old) (S.standing from.new) }
    ensures adopted { OnOk result ((S.standing from.new).is_honest → (T.standing into.new).is_honest
        → (T.standing into.old).content ≡ sound no_tables
        → ((T.standing into.new).content.is_sound ≡ true)
        × IsAdopted building.now renamings.now (S.standing from.old).content.tables (T.standing into.new).content.tables) }
    ensures made { OnOk result (IsMade None (T.standing into.old) (T.standing into.new)) }
    ensures left { IfErr result (λ fault. IsLeft T.standing fault into.old into.new) }
    ensures cause { (S.standing from.new).is_honest
        → IfErr result (IsCause building.now renamings.now (S.standing from.old).content.tables) }
{
    let sections = match sections_of(alloc, building, renamings, from) {
        Ok(sections) => sections,
        Err(fault) => return Err(AdoptFault::Old(fault)),
    };
    if let Some(renaming) = sections.joined() {
        return Err(AdoptFault::Joined(*renaming));
    }
    let change = match read_change(alloc, from, building, &sections) {
        Ok(change) => change,
        Err(fault) => return Err(AdoptFault::Old(fault)),
    };
    if !can_stand(&change) {
        return Err(AdoptFault::OutOfRange);
    }
    match into.commit(&change) {
        Ok(()) => Ok(()),
        Err(fault) => Err(AdoptFault::New(fault)),
    }
}
