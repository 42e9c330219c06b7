//! A run of a panel's commands, with skips over the numbers that are missing.
ghost use Rattle.std.specs.Prelude.{◌≡◌, ◌+◌, ◌≤◌, ◌<◌, ◌++◌, OnOk, map, pos};
ghost use Rattle.std.specs.List.{All};
ghost use Rattle.points.specs.declared.numbered_row.NumberedRow.{NumberedRow as a_row};
ghost use Rattle.points.specs.declared.numbered_row.TheConstants.{LAST_NUMBER};
ghost use Rattle.window.specs.Drain.{contents_of};
ghost use Rattle.window.specs.Between.{asks_between, skip_to};
ghost use Rattle.deliveries.specs.StraightList.{sent};

use deliveries::Delivery;
use points::{Name, NumberedRow};
use std::alloc::AllocError;
use window::LAST_NUMBER;

// Pushes a skip of a panel, where numbers from `next` on are missing below `upto`.
fn skip(
    straightened: &mut Vec<Delivery>,
    panel: &Name,
    next: u64,
    upto: u64,
) -> Result<(), AllocError>
    requires { upto ≤ LAST_NUMBER + 1 }
    ensures { OnOk result (straightened.new.items ≡ straightened.old.items ++ map (sent panel.now) (skip_to next upto)) }
{
    if next < upto {
        straightened.push(Delivery::Skip {
            panel: *panel,
            upto: upto as i64,
        })?;
    }
    Ok(())
}

/// Pushes the commands of a run by rising number, with a skip over each run of missing numbers from `next` up to
/// `end`.
pub fn push_run(
    straightened: &mut Vec<Delivery>,
    panel: &Name,
    mut next: u64,
    run: &[NumberedRow],
    end: u64,
) -> Result<(), AllocError>
    requires end { end ≤ LAST_NUMBER + 1 }
    requires numbers { All (λ (entry : a_row). entry.number < end) run.now }
    ensures { OnOk result (straightened.new.items ≡ straightened.old.items
        ++ map (sent panel.now) (asks_between next (contents_of run.now) end)) }
{
    for entry in run {
        skip(straightened, panel, next, entry.number)?;
        straightened.push(Delivery::Command {
            panel: *panel,
            number: entry.number as i64,
            content: entry.row.content,
        })?;
        next = entry.number + 1;
    }
    skip(straightened, panel, next, end)
}
