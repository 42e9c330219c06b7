//! What schedules show.
ghost use Rattle.std.specs.Prelude.{◌≡◌, None, IfOk};
ghost use Rattle.std.specs.Result.{result_err};
ghost use Rattle.points.specs.Texts.{Text};
ghost use Rattle.store.specs.Change.{with_each, with_shown};
ghost use Rattle.store.specs.Standing.{IsOpen, Reads};
ghost use Rattle.store.specs.Tables.{no_tables};
ghost use Rattle.store_copy.specs.Named.{at_names};

use points::Name;
use std::alloc::Global;
use store::{ShownValue, Store, StoreFault};

/// What schedules show.
pub fn shown_by<S: Store>(
    alloc: Global,
    store: &mut S,
    schedules: &[Name],
) -> Result<Vec<ShownValue>, StoreFault>
    requires open { IsOpen (S.standing store.old) }
    ensures reads { Reads (result_err result) (S.standing store.old) (S.standing store.new) }
    ensures named { (S.standing store.new).is_honest → IfOk result (λ items. (q : Text) → with_each with_shown items.items no_tables.shown q
        ≡ at_names schedules.now (S.standing store.old).content.tables.shown None q) }
{
    let mut items = Vec::new(alloc);
    for schedule in schedules {
        let shown = store.shown(schedule)?;
        items.push(ShownValue {
            schedule: *schedule,
            shown,
        })?;
    }
    Ok(items)
}
