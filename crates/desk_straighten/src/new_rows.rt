//! Which rows of an import are new.
ghost use Rattle.std.specs.Prelude.{◌≡◌, IfOk, List};
ghost use Rattle.std.specs.Result.{result_err};
ghost use Rattle.desk_settling.specs.Calendars.{Tells};
ghost use Rattle.store.specs.Standing.{IsOpen, Reads};
ghost use Rattle.points.specs.Texts.{Text};
ghost use Rattle.deliveries.specs.Cut.{added_rows};

use building::Building;
use desk_clock::{Known, add_row};
use sched::CalendarEntry;
use std::alloc::Global;
use store::{Store, StoreFault};

/// The rows that add an item, each beside those before it.
pub fn rows_that_add<S: Store>(
    alloc: Global,
    store: &mut S,
    building: &Building,
    rows: &[CalendarEntry],
) -> Result<Vec<CalendarEntry>, StoreFault>
    requires open { IsOpen (S.standing store.old) }
    ensures reads { Reads (result_err result) (S.standing store.old) (S.standing store.new) }
    ensures rows { (S.standing store.new).is_honest → (imported : Text → List Text)
        → Tells (S.standing store.old).content.tables.imported imported
        → IfOk result (λ kept. kept.items ≡ added_rows building.now imported rows.now) }
{
    let mut known = Known::new(alloc);
    let mut items = Vec::new(alloc);
    let mut kept = Vec::new(alloc);
    for row in rows {
        let before = items.len();
        add_row(alloc, store, building, &mut known, &mut items, row)?;
        if before < items.len() {
            kept.push(*row)?;
        }
    }
    Ok(kept)
}
