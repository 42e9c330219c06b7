//! What schedules show.
ghost use Rattle.std.specs.Prelude.{◌≡◌, ◌++◌};
ghost use Rattle.std.specs.List.{flat_map};
ghost use Rattle.store.specs.Standing.{IsOpen};
ghost use Rattle.cli_record.specs.Compared.{Compares};
ghost use Rattle.cli_record.specs.Differences.{of_schedule};

use crate::comparing::CompareFault;
use crate::difference::Difference;
use crate::same_row::is_same_shown;
use building::NamedSchedule;
use points::Name;
use store::Store;

/// What a schedule shows on either side: a value or NULL, or nothing where it is quiet.
#[derive(Clone, Copy)]
struct Shown {
    held: Option<Option<i64>>,
    recorded: Option<Option<i64>>,
}

fn both_shown<S: Store, T: Store>(
    store: &mut S,
    other: &mut T,
    schedule: &Name,
) -> Result<Shown, CompareFault>
    requires open { IsOpen (S.standing store.old) }
    ensures { Compares (λ held recorded both. (both.held ≡ held.shown schedule.now)
        × (both.recorded ≡ recorded.shown schedule.now))
        result (S.standing store.old) (S.standing store.new) (T.standing other.old) (T.standing other.new) }
{
    let held = store.shown(schedule)?;
    match other.shown(schedule) {
        Ok(recorded) => Ok(Shown { held, recorded }),
        Err(fault) => Err(CompareFault::Recorded(fault)),
    }
}

fn compare_schedule<S: Store, T: Store>(
    found: &mut Vec<Difference>,
    store: &mut S,
    other: &mut T,
    schedule: &NamedSchedule,
) -> Result<(), CompareFault>
    requires open { IsOpen (S.standing store.old) }
    ensures { Compares (λ held recorded _. found.new.items ≡ found.old.items ++ of_schedule held recorded schedule.now)
        result (S.standing store.old) (S.standing store.new) (T.standing other.old) (T.standing other.new) }
{
    let shown = both_shown(store, other, &schedule.name)?;
    if !is_same_shown(shown.held, shown.recorded) {
        found.push(Difference::Shown {
            schedule: schedule.name,
        })?;
    }
    Ok(())
}

/// Adds where schedules differ, one after the other.
pub fn compare_schedules<S: Store, T: Store>(
    found: &mut Vec<Difference>,
    store: &mut S,
    other: &mut T,
    schedules: &[NamedSchedule],
) -> Result<(), CompareFault>
    requires open { IsOpen (S.standing store.old) }
    requires open_other { IsOpen (T.standing other.old) }
    ensures { Compares (λ held recorded _. found.new.items
        ≡ found.old.items ++ flat_map (of_schedule held recorded) schedules.now)
        result (S.standing store.old) (S.standing store.new) (T.standing other.old) (T.standing other.new) }
{
    for schedule in schedules {
        compare_schedule(found, store, other, schedule)?;
    }
    Ok(())
}
