//! The rows of schedules and calendars, which are read so that one that cannot stand is found.
ghost use Rattle.std.specs.Prelude.{◌≡◌, IfOk, OnOk, false};
ghost use Rattle.std.specs.List.{list_any};
ghost use Rattle.std.specs.Result.{result_err};
ghost use Rattle.store.specs.Asked.Asked.{ShownBy};
ghost use Rattle.store.specs.Standing.{IsOpen, Reads};
ghost use Rattle.desk_adopt.specs.Surveyed.{AreCounted};

use points::Name;
use store::{Store, StoreFault};

/// Reads what each schedule shows.
pub fn read_shown<S: Store>(store: &mut S, schedules: &[Name]) -> Result<(), StoreFault>
    requires { IsOpen (S.standing store.old) }
    ensures reads { Reads (result_err result) (S.standing store.old) (S.standing store.new) }
    ensures stood { (S.standing store.new).is_honest
        → OnOk result (list_any (λ schedule. (S.standing store.old).cannot_stand (ShownBy schedule)) schedules.now ≡ false) }
{
    for schedule in schedules {
        let _shown = store.shown(schedule)?;
    }
    Ok(())
}

/// How many entries are imported into the calendars.
pub fn count_entries<S: Store>(store: &mut S, calendars: &[Name]) -> Result<u128, StoreFault>
    requires { IsOpen (S.standing store.old) }
    ensures reads { Reads (result_err result) (S.standing store.old) (S.standing store.new) }
    ensures counted { (S.standing store.new).is_honest
        → IfOk result (λ count. AreCounted (S.standing store.old).content.tables calendars.now count) }
{
    let mut count = 0u128;
    for calendar in calendars {
        let entries = store.entries(calendar)?;
        count += entries.len() as u128;
    }
    Ok(count)
}
