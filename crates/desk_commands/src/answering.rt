//! Answering a panel's command or skip.
ghost use Rattle.std.specs.Prelude.{◌≡◌, ◌+◌, ◌≤◌, List, Some, IfSome};
ghost use Rattle.std.specs.Result.{result_err};
ghost use Rattle.store.specs.Standing.{ChangesOnce, Goes, IsOpen};
ghost use Rattle.window.specs.Taken.{Ask, front};
ghost use Rattle.deliveries.specs.declared.delivery.Delivery.{Delivery as a_delivery};
ghost use Rattle.deliveries.specs.declared.delivery.Delivery.TheVariants as delivery_of;
ghost use Rattle.deliveries.specs.Accepted.{number_upto, panel_named, taken_by};
ghost use Rattle.deliveries.specs.Delivered.{Delivers, Holds, KeepsImported};
ghost use Rattle.desk_commands.specs.Planned.{IsPlanned};
ghost use Rattle.desk_commands.specs.Carried.{MakesOnce};

use crate::carrying_out::{carry_out, is_in_range};
use crate::replying::reply_on;
use crate::viewing::{view_for_command, view_for_skip};
use building::Building;
use deliveries::Reply;
use points::{Content, Name, Panel};
use std::alloc::Global;
use store::{Store, StoreFault};
use window::{LAST_NUMBER, Plan, plan_command, plan_skip};

// A number from 1 to the last one, as a natural number.
fn number_upto(last: u64, number: i64) -> Option<u64>
    ensures found { result ≡ number_upto last number }
    ensures most { IfSome result (λ natural. natural ≤ last) }
{
    match u64::try_from(number) {
        Ok(natural) if 1 <= natural && natural <= last => Some(natural),
        _ => None,
    }
}

// Answers what was planned, and carries it out where it changes anything.
fn answer_plan<S: Store>(
    alloc: Global,
    store: &mut S,
    building: &Building,
    panel: &Panel,
    plan: &Plan,
    next: u64,
    number: i64,
) -> Result<Reply, StoreFault>
    requires open { IsOpen (S.standing store.old) }
    requires known { panel_named building.now panel.now.name ≡ Some panel.now }
    ensures makes { MakesOnce (result_err result) (S.standing store.old) (S.standing store.new) }
    ensures delivers { (earlier : List a_delivery) (delivery : a_delivery) (ask : Ask)
        → IsPlanned building.now earlier delivery ask panel.now.name next number plan.now
        → (S.standing store.new).is_honest → Holds building.now earlier (S.standing store.old)
        → Delivers building.now earlier delivery result (S.standing store.new) }
{
    if plan.next == next && plan.park.is_none() {
        return reply_on(plan.verdict, next, plan.next, number, None);
    }
    if !is_in_range(plan) {
        return Err(StoreFault::BadRow);
    }
    carry_out(alloc, store, building, panel, plan, next, number)
}

// Answers a command of a panel of the building, of which `next` is the next number.
fn answer_known_command<S: Store>(
    alloc: Global,
    store: &mut S,
    building: &Building,
    panel: &Panel,
    next: u64,
    number: i64,
    content: &Content,
) -> Result<Reply, StoreFault>
    requires open { IsOpen (S.standing store.old) }
    requires known { panel_named building.now panel.now.name ≡ Some panel.now }
    ensures makes { MakesOnce (result_err result) (S.standing store.old) (S.standing store.new) }
    ensures delivers { (earlier : List a_delivery) → next ≡ front (taken_by building.now panel.now.name earlier)
        → (S.standing store.new).is_honest → Holds building.now earlier (S.standing store.old)
        → Delivers building.now earlier (delivery_of.Command panel.now.name number content.now) result (S.standing store.new) }
{
    let Some(natural) = number_upto(LAST_NUMBER, number) else {
        return Ok(Reply::BadNumber);
    };
    let view = view_for_command(alloc, store, &panel.name, next, natural)?;
    let plan = plan_command(alloc, &view, natural, content)?;
    answer_plan(alloc, store, building, panel, &plan, next, number)
}

// Answers a skip of a panel of the building, of which `next` is the next number.
fn answer_known_skip<S: Store>(
    alloc: Global,
    store: &mut S,
    building: &Building,
    panel: &Panel,
    next: u64,
    upto: i64,
) -> Result<Reply, StoreFault>
    requires open { IsOpen (S.standing store.old) }
    requires known { panel_named building.now panel.now.name ≡ Some panel.now }
    ensures makes { MakesOnce (result_err result) (S.standing store.old) (S.standing store.new) }
    ensures delivers { (earlier : List a_delivery) → next ≡ front (taken_by building.now panel.now.name earlier)
        → (S.standing store.new).is_honest → Holds building.now earlier (S.standing store.old)
        → Delivers building.now earlier (delivery_of.Skip panel.now.name upto) result (S.standing store.new) }
{
    let Some(natural) = number_upto(LAST_NUMBER + 1, upto) else {
        return Ok(Reply::BadNumber);
    };
    let view = view_for_skip(alloc, store, &panel.name, next, natural)?;
    let plan = plan_skip(alloc, &view, natural)?;
    answer_plan(alloc, store, building, panel, &plan, next, upto)
}

/// Carries out the command of a panel and answers it: of whatever list the store holds the tables, it then holds
/// those of the list with this command after it. It begins with a read, so that a store that is shut answers
/// before all else; what it changes it changes in one commit, its last call of the store.
pub fn deliver_command<S: Store>(
    alloc: Global,
    store: &mut S,
    building: &Building,
    name: &Name,
    number: i64,
    content: &Content,
) -> Result<Reply, StoreFault>
    ensures goes { Goes (result_err result) (S.standing store.old) (S.standing store.new) }
    ensures changes_once { ChangesOnce (result_err result) (S.standing store.old) (S.standing store.new) }
    ensures imported { KeepsImported (S.standing store.old) (S.standing store.new) }
    ensures delivers { (earlier : List a_delivery) → (S.standing store.new).is_honest → Holds building.now earlier (S.standing store.old)
        → Delivers building.now earlier (delivery_of.Command name.now number content.now) result (S.standing store.new) }
{
    let Some(panel) = building.find_panel(name) else {
        // A store that is shut answers before all else. It isn't asked for the name: a client may choose any.
        let _last = store.last_tick()?;
        return Ok(Reply::NoPanel);
    };
    let next = store.panel_next(name)?;
    answer_known_command(alloc, store, building, panel, next, number, content)
}

/// Carries out the skip of a panel and answers it, as a command.
pub fn deliver_skip<S: Store>(
    alloc: Global,
    store: &mut S,
    building: &Building,
    name: &Name,
    upto: i64,
) -> Result<Reply, StoreFault>
    ensures goes { Goes (result_err result) (S.standing store.old) (S.standing store.new) }
    ensures changes_once { ChangesOnce (result_err result) (S.standing store.old) (S.standing store.new) }
    ensures imported { KeepsImported (S.standing store.old) (S.standing store.new) }
    ensures delivers { (earlier : List a_delivery) → (S.standing store.new).is_honest → Holds building.now earlier (S.standing store.old)
        → Delivers building.now earlier (delivery_of.Skip name.now upto) result (S.standing store.new) }
{
    let Some(panel) = building.find_panel(name) else {
        let _last = store.last_tick()?;
        return Ok(Reply::NoPanel);
    };
    let next = store.panel_next(name)?;
    answer_known_skip(alloc, store, building, panel, next, upto)
}
