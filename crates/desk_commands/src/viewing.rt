//! What is read of a panel.
ghost use Rattle.std.specs.Prelude.{◌≡◌, ◌+◌, ◌≤◌, None, IfOk, IfSome};
ghost use Rattle.std.specs.Result.{result_err};
ghost use Rattle.points.specs.Run.{IsRun, Rows};
ghost use Rattle.store.specs.Standing.{IsOpen, Reads};
ghost use Rattle.window.specs.RunNeeded.{run_behind, run_over};
ghost use Rattle.window.specs.View.{IsRunNeeded};
ghost use Rattle.points.specs.declared.numbered_row.TheConstants.{LAST_NUMBER};
ghost use Rattle.window.specs.declared.run_needed.RunNeeded.{RunNeeded as a_run};
ghost use Rattle.desk_commands.specs.Views.{Views};

use points::{CommandRow, Listing, Name, NumberedRow};
use std::alloc::Global;
use store::{Store, StoreFault};
use window::{PanelView, RunNeeded, run_for_command, run_for_skip};

fn rows_needed<S: Store>(
    alloc: Global,
    store: &mut S,
    panel: &Name,
    needed: Option<RunNeeded>,
) -> Result<Listing<NumberedRow>, StoreFault>
    requires open { IsOpen (S.standing store.old) }
    requires ordered { IfSome needed (λ (run : a_run). run.from ≤ run.upto) }
    ensures reads { Reads (result_err result) (S.standing store.old) (S.standing store.new) }
    ensures run { (S.standing store.new).is_honest → IfOk result (λ run.
        IsRunNeeded ((S.standing store.old).content.tables.row panel.now) needed run) }
{
    match needed {
        None => Ok(Listing::from_vec(Vec::new(alloc))),
        Some(run) => Ok(Listing::from_vec(store.commands_run(panel, run.from, run.upto)?)),
    }
}

// The row that stands at a number, and those behind it, of the rows from that number on.
fn asked_and_behind(
    mut rows: Vec<NumberedRow>,
    number: u64,
) -> (Option<CommandRow>, Vec<NumberedRow>)
    ensures { (all : Rows) → IsRun all number (number + 1) rows.items
        → (result.0 ≡ all number) × IsRun all (number + 1) (number + 1) result.1.items }
{
    match rows.first() {
        Some(found) if found.number == number => {
            let first = rows.remove(0);
            (Some(first.row), rows)
        }
        _ => (None, rows),
    }
}

/// What is kept of a panel, as far as its command at `number` needs it. `next` is its next number.
pub fn view_for_command<S: Store>(
    alloc: Global,
    store: &mut S,
    panel: &Name,
    next: u64,
    number: u64,
) -> Result<PanelView, StoreFault>
    requires last { number ≤ LAST_NUMBER }
    ensures reads { Reads (result_err result) (S.standing store.old) (S.standing store.new) }
    ensures views { (S.standing store.new).is_honest → IfOk result (λ view.
        Views ((S.standing store.old).content.tables.row panel.now) next
        ((S.standing store.old).content.tables.row panel.now number) (run_behind next number) view) }
{
    let Some(needed) = run_for_command(next, number) else {
        let asked = store.command(panel, number)?;
        return Ok(PanelView {
            next,
            asked,
            run: Listing::from_vec(Vec::new(alloc)),
        });
    };
    // One read says both: the row at the number, and the run behind it.
    let rows = store.commands_run(panel, number, needed.upto)?;
    let (asked, behind) = asked_and_behind(rows, number);
    Ok(PanelView {
        next,
        asked,
        run: Listing::from_vec(behind),
    })
}

/// What is kept of a panel, as far as its skip to `upto` needs it. `next` is its next number.
pub fn view_for_skip<S: Store>(
    alloc: Global,
    store: &mut S,
    panel: &Name,
    next: u64,
    upto: u64,
) -> Result<PanelView, StoreFault>
    requires open { IsOpen (S.standing store.old) }
    ensures reads { Reads (result_err result) (S.standing store.old) (S.standing store.new) }
    ensures views { (S.standing store.new).is_honest → IfOk result (λ view.
        Views ((S.standing store.old).content.tables.row panel.now) next None (run_over next upto) view) }
{
    let run = rows_needed(alloc, store, panel, run_for_skip(next, upto))?;
    Ok(PanelView {
        next,
        asked: None,
        run,
    })
}
