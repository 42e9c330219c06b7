//! Carrying out a plan: its commands are acted on in memory, and one commit makes the whole change.
ghost use Rattle.std.specs.Prelude.{◌≡◌, ◌+◌, ◌-◌, ◌≤◌, ◌++◌, ◌∷◌, [], true, Some, None, IfOk, IfSome};
ghost use Rattle.std.specs.List.{All, list_all};
ghost use Rattle.std.specs.Option.{option_map_or};
ghost use Rattle.std.specs.Result.{result_err};
ghost use Rattle.deliveries.specs.Accepted.{panel_named};
ghost use Rattle.deliveries.specs.Delivered.{KeepsImported};
ghost use Rattle.deliveries.specs.Moved.{parked_rows};
ghost use Rattle.store.specs.Change.{CanStand, IsKeptRow, IsNumber, IsPlace};
ghost use Rattle.window.specs.declared.numbered_content.NumberedContent.{NumberedContent as an_entry};
ghost use Rattle.store.specs.Standing.{ChangesOnce, IsOpen};
ghost use Rattle.desk_commands.specs.Carried.{Carries, IsChangeOf, IsInRange, dropped_below, first_answer_in, is_in_range, is_number};
ghost use Rattle.points.specs.declared.numbered_row.TheConstants.{LAST_NUMBER};

use crate::acting::{Acted, act_on_each};
use crate::replying::reply_on;
use building::Building;
use deliveries::Reply;
use points::{Answer, CommandRow, CommandState, Name, Panel};
use std::alloc::{AllocError, Global};
use store::{Change, KeptRow, NextNumber, RowsBelow, Store, StoreFault};
use window::{LAST_NUMBER, NumberedContent, Plan, REMEMBERED};

fn is_number(entry: &NumberedContent) -> bool
    ensures { result ≡ is_number entry.now.number }
{
    1 <= entry.number && entry.number <= LAST_NUMBER
}

fn are_numbers(entries: &[NumberedContent]) -> bool
    ensures { result ≡ list_all (λ (entry : an_entry). is_number entry.number) entries.now }
{
    entries.iter().all(|entry| is_number(entry))
}

fn is_park_in_range(plan: &Plan) -> bool
    ensures { result ≡ option_map_or (λ (entry : an_entry). is_number entry.number) plan.now.park true }
{
    match &plan.park {
        Some(entry) => is_number(entry),
        None => true,
    }
}

/// Whether the numbers of a plan lie in their ranges, as those of sound tables do.
pub fn is_in_range(plan: &Plan) -> bool
    ensures { result ≡ is_in_range plan.now }
{
    1 <= plan.next
        && plan.next <= LAST_NUMBER + 1
        && are_numbers(plan.apply.as_slice())
        && is_park_in_range(plan)
}

// The answer of the first command that was acted on.
fn first_answer(rows: &[KeptRow]) -> Option<Answer>
    ensures { result ≡ first_answer_in rows.now }
{
    match rows.first()?.row.state {
        CommandState::Answered(answer) => Some(answer),
        CommandState::Parked => None,
    }
}

// The rows with that of the command that is parked.
fn with_parked(
    mut rows: Vec<KeptRow>,
    panel: Name,
    park: Option<NumberedContent>,
) -> Result<Vec<KeptRow>, AllocError>
    requires numbers { IfSome park (λ (entry : an_entry). IsNumber entry.number) }
    requires kept { All IsKeptRow rows.items }
    ensures rows { IfOk result (λ all. all.items ≡ rows.items ++ parked_rows panel park) }
    ensures kept { IfOk result (λ all. All IsKeptRow all.items) }
{
    let Some(entry) = park else {
        return Ok(rows);
    };
    rows.push(KeptRow {
        panel,
        number: entry.number,
        row: CommandRow {
            content: entry.content,
            state: CommandState::Parked,
        },
    })?;
    Ok(rows)
}

// What drops the rows of a panel below a number: nothing below 0, as for each panel of at most 1,000 numbers.
fn dropped_below(alloc: Global, panel: Name, number: u64) -> Result<Vec<RowsBelow>, AllocError>
    ensures { IfOk result (λ dropped. dropped.items ≡ dropped_below panel number) }
{
    let mut dropped = Vec::new(alloc);
    if number != 0 {
        dropped.push(RowsBelow { panel, number })?;
    }
    Ok(dropped)
}

// The change that a plan makes, with what its commands made.
#[tactic(auto, unfolding(window::specs::Window::remembered))]
fn change_of(alloc: Global, panel: Name, plan: &Plan, acted: Acted) -> Result<Change, AllocError>
    requires ranges { IsInRange plan.now }
    requires kept { All IsKeptRow acted.rows.items }
    requires placed { All IsPlace acted.places.items }
    ensures change { IfOk result (λ change. IsChangeOf panel plan.now acted change) }
    ensures stands { IfOk result CanStand }
{
    let mut nexts = Vec::new(alloc);
    nexts.push(NextNumber {
        panel,
        next: plan.next,
    })?;
    Ok(Change {
        nexts,
        rows: with_parked(acted.rows, panel, plan.park)?,
        dropped: dropped_below(alloc, panel, plan.next.saturating_sub(REMEMBERED))?,
        places: acted.places,
        shown: Vec::new(alloc),
        imported: Vec::new(alloc),
        last_tick: None,
    })
}

/// Acts on a plan's commands and makes the change of the plan, in one commit: the store's last call. The reply is made
/// before it, with the answer of the first command, and S5 where the plan applies and has none. `next` is the panel's
/// next number before the delivery, and `number` the one that the delivery has.
pub fn carry_out<S: Store>(
    alloc: Global,
    store: &mut S,
    building: &Building,
    panel: &Panel,
    plan: &Plan,
    next: u64,
    number: i64,
) -> Result<Reply, StoreFault>
    requires open { IsOpen (S.standing store.old) }
    requires known { panel_named building.now panel.now.name ≡ Some panel.now }
    requires ranges { IsInRange plan.now }
    ensures carries { Carries building.now panel.now.name plan.now next number result (S.standing store.old) (S.standing store.new) }
    ensures changes_once { ChangesOnce (result_err result) (S.standing store.old) (S.standing store.new) }
    ensures imported { KeepsImported (S.standing store.old) (S.standing store.new) }
{
    let acted = act_on_each(alloc, store, building, panel, plan.apply.as_slice())?;
    let answer = first_answer(acted.rows.as_slice());
    let reply = reply_on(plan.verdict, next, plan.next, number, answer)?;
    let change = change_of(alloc, panel.name, plan, acted)?;
    store.commit(&change)?;
    Ok(reply)
}
