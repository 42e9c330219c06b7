//! The tables of one store are put into another.
ghost use Rattle.std.specs.Prelude.{◌≡◌, None, IfOk, IfErr, OnOk};
ghost use Rattle.std.specs.List.{All};
ghost use Rattle.std.specs.Result.{result_err};
ghost use Rattle.store.specs.Change.{IsPlace, with_change};
ghost use Rattle.store.specs.Standing.{Reads, sound};
ghost use Rattle.store.specs.Tables.{no_tables};
ghost use Rattle.store_copy.specs.Faults.{read_fault, IsLeft, IsMade};
ghost use Rattle.store_copy.specs.Remembered.{remembered};

use crate::calendars::entries_of;
use crate::panels::{nexts_of, rows_of};
use crate::places::places_of;
use crate::schedules::shown_by;
use crate::standing::can_stand;
use std::alloc::Global;
use store::{Change, Store, StoreFault};

/// Why nothing was copied.
#[derive(Clone, Copy, Debug)]
pub enum CopyFault {
    /// The tables could not be read.
    Read(StoreFault),
    /// A next number or an answer of the tables is out of its range.
    OutOfRange,
    /// The copy could not be written.
    Written(StoreFault),
}

/// What a store holds, as one change of empty tables.
fn whole_change<S: Store>(alloc: Global, store: &mut S) -> Result<Change, StoreFault>
    ensures reads { Reads (result_err result) (S.standing store.old) (S.standing store.new) }
    ensures whole { (S.standing store.new).is_honest → IfOk result (λ change.
        with_change change no_tables ≡ remembered (S.standing store.old).content.tables) }
    ensures are_places { IfOk result (λ change. All IsPlace change.places.items) }
{
    let names = store.names()?;
    let nexts = nexts_of(alloc, store, &names.panels)?;
    let rows = rows_of(alloc, store, &names.panels)?;
    let places = places_of(alloc, store, &names.points)?;
    let shown = shown_by(alloc, store, &names.schedules)?;
    let imported = entries_of(alloc, store, &names.calendars)?;
    let last_tick = store.last_tick()?;
    Ok(Change {
        nexts,
        rows,
        dropped: Vec::new(alloc),
        places,
        shown,
        imported,
        last_tick,
    })
}

/// Copies what a store holds into one that holds nothing, in one commit: of a panel's rows those that it may still repeat
/// or use. The first is only read.
pub fn copy_tables<S: Store, T: Store>(
    alloc: Global,
    from: &mut S,
    into: &mut T,
) -> Result<(), CopyFault>
    ensures reads { Reads (read_fault result) (S.standing from.old) (S.standing from.new) }
    ensures copied { OnOk result ((S.standing from.new).is_honest → (T.standing into.new).is_honest
        → (T.standing into.old).content ≡ sound no_tables
        → (T.standing into.new).content ≡ sound (remembered (S.standing from.old).content.tables)) }
    ensures made { OnOk result (IsMade None (T.standing into.old) (T.standing into.new)) }
    ensures left { IfErr result (λ fault. IsLeft T.standing fault into.old into.new) }
{
    let change = match whole_change(alloc, from) {
        Ok(change) => change,
        Err(fault) => return Err(CopyFault::Read(fault)),
    };
    if !can_stand(&change) {
        return Err(CopyFault::OutOfRange);
    }
    match into.commit(&change) {
        Ok(()) => Ok(()),
        Err(fault) => Err(CopyFault::Written(fault)),
    }
}
