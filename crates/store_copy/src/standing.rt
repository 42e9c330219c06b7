//! Whether the items of a change lie in their ranges.
ghost use Rattle.std.specs.Prelude.{◌↔◌, IsTrue};
ghost use Rattle.std.specs.List.{All};
ghost use Rattle.store.specs.Change.{IsKeptRow, IsNext, IsState};

use points::{Answer, CommandState, LAST_NUMBER, LOWEST_PRIORITY};
use store::{Change, KeptRow, NextNumber};

fn is_next(item: &NextNumber) -> bool
    ensures { IsTrue result ↔ IsNext item.now }
{
    1 <= item.next && item.next <= LAST_NUMBER + 1
}

fn is_state(state: &CommandState) -> bool
    ensures { IsTrue result ↔ IsState state.now }
{
    match state {
        CommandState::Answered(Answer::Done { priority, .. }) => *priority <= LOWEST_PRIORITY,
        _ => true,
    }
}

fn is_kept_row(item: &KeptRow) -> bool
    ensures { IsTrue result ↔ IsKeptRow item.now }
{
    1 <= item.number && item.number <= LAST_NUMBER && is_state(&item.row.state)
}

/// Whether the next numbers and rows of a change lie in their ranges.
pub fn can_stand(change: &Change) -> bool
    ensures { IsTrue result ↔ (All IsNext change.now.nexts.items × All IsKeptRow change.now.rows.items) }
{
    change.nexts.iter().all(is_next) && change.rows.iter().all(is_kept_row)
}
