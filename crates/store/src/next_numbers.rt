//! Next numbers that are read so that one that cannot stand is found.
ghost use Rattle.std.specs.Prelude.{◌≡◌, OnOk, false};
ghost use Rattle.std.specs.List.{list_any};
ghost use Rattle.std.specs.Result.{result_err};
ghost use Rattle.store.specs.Asked.Asked.{NextOf};
ghost use Rattle.store.specs.Standing.{IsOpen, Reads};

use crate::fault::StoreFault;
use crate::store::Store;
use points::Name;

/// Reads the next number of each panel: it succeeds only where the row of each can stand.
pub fn read_nexts<S: Store>(store: &mut S, panels: &[Name]) -> Result<(), StoreFault>
    requires { IsOpen (S.standing store.old) }
    ensures reads { Reads (result_err result) (S.standing store.old) (S.standing store.new) }
    ensures stood { (S.standing store.new).is_honest
        → OnOk result (list_any (λ panel. (S.standing store.old).cannot_stand (NextOf panel)) panels.now ≡ false) }
{
    for panel in panels {
        let _next = store.panel_next(panel)?;
    }
    Ok(())
}
