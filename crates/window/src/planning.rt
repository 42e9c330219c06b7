//! Plans for the commands and skips of a panel.
ghost use Rattle.std.specs.Prelude.{◌≡◌, ◌+◌, ◌≤◌, ℕ, List, [], ◌∷◌, Some, None, IfOk};
ghost use Rattle.window.specs.Plan.{Plans};
ghost use Rattle.window.specs.Taken.{Ask, Command, Skip, Taken, opening, taken};
ghost use Rattle.window.specs.Verdict.{verdict_of};
ghost use Rattle.window.specs.View.{Shows};
ghost use Rattle.points.specs.declared.numbered_row.TheConstants.{LAST_NUMBER};

use crate::draining::drained;
use crate::numbered_content::NumberedContent;
use crate::panel_view::PanelView;
use crate::plan::Plan;
use crate::verdict::Verdict;
use crate::{LAST_NUMBER, REMEMBERED, WINDOW};
use points::{Content, Listing};
use std::alloc::{AllocError, Global};

/// The plan for a command with a number from 1 to 1,000,000,000,000: whatever the panel asked before, if
/// the view shows what was accepted of it, the plan has what the definitions give for one ask more.
pub fn plan_command(
    alloc: Global,
    view: &PanelView,
    number: u64,
    content: &Content,
) -> Result<Plan, AllocError>
    requires { number ≤ LAST_NUMBER }
    ensures { IfOk result (λ plan. (asks : List Ask) →
        let earlier = taken opening asks in let ask = Command number content.now in
        Shows view.now earlier ask → Plans earlier ask view.now.asked plan) }
{
    let verdict = verdict_on(view, number, content);
    match verdict {
        Verdict::Applies => {
            let mut contents = Vec::new(alloc);
            contents.push(numbered(number, content))?;
            drained(contents, view.run.as_slice(), number + 1, verdict)
        }
        Verdict::Parked => Ok(Plan {
            next: view.next,
            apply: Listing::from_vec(Vec::new(alloc)),
            park: Some(numbered(number, content)),
            verdict,
        }),
        _ => Ok(unchanged(alloc, view.next, verdict)),
    }
}

/// The plan for a skip with an `upto` from 1 to 1,000,000,000,001: whatever the panel asked before, if the
/// view shows what was accepted of it, the plan has what the definitions give for one ask more.
pub fn plan_skip(alloc: Global, view: &PanelView, upto: u64) -> Result<Plan, AllocError>
    requires { upto ≤ LAST_NUMBER + 1 }
    ensures { IfOk result (λ plan. (asks : List Ask) →
        let earlier = taken opening asks in let ask = Skip upto in
        Shows view.now earlier ask → Plans earlier ask view.now.asked plan) }
{
    if upto <= view.next {
        Ok(unchanged(alloc, view.next, Verdict::SkipDone))
    } else if upto - view.next <= WINDOW {
        drained(
            Vec::new(alloc),
            view.run.as_slice(),
            upto,
            Verdict::SkipDone,
        )
    } else {
        Ok(unchanged(alloc, view.next, Verdict::TooFar))
    }
}

#[tactic(auto, unfolding(crate::specs::Window::window, crate::specs::Window::remembered))]
fn verdict_on(view: &PanelView, number: u64, content: &Content) -> Verdict
    ensures { (earlier : Taken) → let ask = Command number content.now in
        Shows view.now earlier ask → result ≡ verdict_of earlier ask view.now.asked }
{
    if number < view.next.saturating_sub(REMEMBERED) {
        return Verdict::Forgotten;
    }
    if let Some(row) = &view.asked {
        if row.content.is_same_as(content) {
            return Verdict::Repeat(row.state);
        }
        return Verdict::Differs;
    }
    if number < view.next {
        Verdict::Skipped
    } else if number == view.next {
        Verdict::Applies
    } else if number - view.next < WINDOW {
        Verdict::Parked
    } else {
        Verdict::TooFar
    }
}

fn numbered(number: u64, content: &Content) -> NumberedContent
    ensures { result ≡ record { number = number; content = content.now } }
{
    NumberedContent {
        number,
        content: *content,
    }
}

// The plan that changes nothing.
fn unchanged(alloc: Global, next: u64, verdict: Verdict) -> Plan
    ensures { result ≡ record { next = next; apply = []; park = None; verdict = verdict } }
{
    Plan {
        next,
        apply: Listing::from_vec(Vec::new(alloc)),
        park: None,
        verdict,
    }
}
