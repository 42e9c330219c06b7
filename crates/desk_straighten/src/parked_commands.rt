//! The commands that are still parked.
ghost use Rattle.std.specs.Prelude.{◌≡◌, ◌≤◌, ◌++◌, List, OnOk, map};
ghost use Rattle.std.specs.List.{All};
ghost use Rattle.deliveries.specs.declared.delivery.Delivery.{Delivery as a_delivery};
ghost use Rattle.deliveries.specs.Accepted.{taken_by};
ghost use Rattle.deliveries.specs.Delivered.{Holds};
ghost use Rattle.store_memory.specs.Memory.{standing_of};
ghost use Rattle.points.specs.declared.numbered_row.NumberedRow.{NumberedRow as a_row};
ghost use Rattle.points.specs.declared.numbered_row.TheConstants.{LAST_NUMBER};
ghost use Rattle.window.specs.Drain.{contents_of};
ghost use Rattle.desk_straighten.specs.Kept.{HoldsSome};
ghost use Rattle.deliveries.specs.StraightList.{sent};
ghost use Rattle.window.specs.Parked.{command_of, parked_asks};

use building::Building;
use deliveries::Delivery;
use points::{Name, NumberedRow};
use std::alloc::AllocError;
use store::{Store, StoreFault};
use store_memory::MemStore;
use window::WINDOW;

// Pushes the commands of a run.
fn push_commands(
    straightened: &mut Vec<Delivery>,
    panel: &Name,
    run: &[NumberedRow],
) -> Result<(), AllocError>
    requires numbers { All (λ (entry : a_row). entry.number ≤ LAST_NUMBER) run.now }
    ensures { OnOk result (straightened.new.items ≡ straightened.old.items ++ map (sent panel.now) (map command_of (contents_of run.now))) }
{
    for entry in run {
        straightened.push(Delivery::Command {
            panel: *panel,
            number: entry.number as i64,
            content: entry.row.content,
        })?;
    }
    Ok(())
}

/// Pushes the commands of a panel that are still parked, by rising number.
pub fn push_parked(
    store: &mut MemStore,
    building: &Building,
    straightened: &mut Vec<Delivery>,
    panel: &Name,
) -> Result<(), StoreFault>
    requires some { HoldsSome building.now (standing_of store.old) }
    ensures same { OnOk result ((standing_of store.new).content ≡ (standing_of store.old).content) }
    ensures straightens { (earlier : List a_delivery) → Holds building.now earlier (standing_of store.old)
        → OnOk result (straightened.new.items ≡ straightened.old.items
        ++ map (sent panel.now) (parked_asks (taken_by building.now panel.now earlier))) }
{
    let next = store.panel_next(panel)?;
    let run = store.commands_run(panel, next, next + WINDOW)?;
    push_commands(straightened, panel, run.as_slice())?;
    Ok(())
}
