//! The comparison of the tables of a database with those of a record.
ghost use Rattle.std.specs.Prelude.{◌≡◌};
ghost use Rattle.cli_record.specs.Compared.{Compares};
ghost use Rattle.cli_record.specs.Differences.{AreDifferences};

use crate::adding::add_unless;
use crate::calendars::compare_calendars;
use crate::difference::Difference;
use crate::panels::compare_panels;
use crate::places::compare_points;
use crate::same_row::is_same_value;
use crate::schedules::compare_schedules;
use building::Building;
use cli_common::RunFault;
use std::alloc::{AllocError, AllocFailed, Global};
use store::{Store, StoreFault};

/// Why tables were not compared.
#[derive(Clone, Copy, Debug)]
pub enum CompareFault {
    /// The tables of the database could not be read.
    Held(StoreFault),
    /// The tables of the record could not be read.
    Recorded(StoreFault),
    /// Memory was refused.
    NoMemory,
}

impl From<CompareFault> for RunFault<'_> {
    fn from(fault: CompareFault) -> Self {
        match fault {
            CompareFault::Held(fault) | CompareFault::Recorded(fault) => RunFault::from(fault),
            CompareFault::NoMemory => RunFault::NoMemory,
        }
    }
}

impl From<StoreFault> for CompareFault {
    ghost use Rattle.std.specs.Prelude.{◌≡◌};
    ghost use Rattle.cli_record.specs.declared.comparing.CompareFault.TheVariants.{Held};

    ghost from_gives = { λ fault given. given ≡ Held fault };

    fn from(fault: StoreFault) -> CompareFault {
        CompareFault::Held(fault)
    }
}

impl From<AllocError> for CompareFault {
    ghost use Rattle.std.specs.Prelude.{◌≡◌};
    ghost use Rattle.cli_record.specs.declared.comparing.CompareFault.TheVariants.{NoMemory};

    ghost from_gives = { λ _ given. given ≡ NoMemory };

    fn from(_refused: AllocError) -> CompareFault {
        CompareFault::NoMemory
    }
}

impl<T: Drop> From<AllocFailed<T>> for CompareFault {
    ghost use Rattle.std.specs.Prelude.{◌≡◌};
    ghost use Rattle.cli_record.specs.declared.comparing.CompareFault.TheVariants.{NoMemory};

    ghost from_gives = { λ _ given. given ≡ NoMemory };

    fn from(_refused: AllocFailed<T>) -> CompareFault {
        CompareFault::NoMemory
    }
}

/// The last tick in the tables, and in those of the record.
pub(crate) fn last_ticks<S: Store, T: Store>(
    store: &mut S,
    other: &mut T,
) -> Result<(Option<i64>, Option<i64>), CompareFault>
    ensures { Compares (λ held recorded both. (both.0 ≡ held.last_tick) × (both.1 ≡ recorded.last_tick))
        result (S.standing store.old) (S.standing store.new) (T.standing other.old) (T.standing other.new) }
{
    let held = store.last_tick()?;
    match other.last_tick() {
        Ok(recorded) => Ok((held, recorded)),
        Err(fault) => Err(CompareFault::Recorded(fault)),
    }
}

/// Where the tables of a store differ from those of a record, at the names of a building: panels, points, schedules and
/// calendars in the order of the file, and the last tick. Both stores are only read; a fault of the first is `Held`,
/// one of the other `Recorded`.
pub fn compare_tables<S: Store, T: Store>(
    alloc: Global,
    building: &Building,
    store: &mut S,
    other: &mut T,
) -> Result<Vec<Difference>, CompareFault>
    ensures { Compares (λ held recorded found. AreDifferences building.now held recorded found.items)
        result (S.standing store.old) (S.standing store.new) (T.standing other.old) (T.standing other.new) }
{
    let (held, recorded) = last_ticks(store, other)?;
    let mut found = Vec::new(alloc);
    compare_panels(&mut found, store, other, building.panels())?;
    compare_points(&mut found, store, other, building.points())?;
    compare_schedules(&mut found, store, other, building.schedules())?;
    compare_calendars(alloc, &mut found, store, other, building.calendars())?;
    let difference = Difference::LastTick { held, recorded };
    add_unless(&mut found, is_same_value(held, recorded), difference)?;
    Ok(found)
}
