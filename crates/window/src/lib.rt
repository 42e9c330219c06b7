//! What does a panel's number do, given all that the panel asked before?
//!
//! A panel numbers its commands from 1 on, and they may come late, twice, out of turn or never. Of each
//! panel a caller keeps the `next` number (the least one that is neither acted on nor given up) and the rows
//! of what was accepted. For a command or a skip it makes a `PanelView` of them: `next`, the row of the
//! number asked for, and the run of rows that `run_for_command` or `run_for_skip` names. From the view
//! `plan_command` or `plan_skip` makes a `Plan`, which the caller carries out: the contents to act on, in
//! order, the one to park, the new `next`, and the verdict.
//!
//! That a plan is right for every list of asks is the contract of both: `specs/View.antt` says what a view
//! shows, `specs/Plan.antt` what a plan says, by the definitions of what was accepted (`specs/Taken.antt`)
//! and of what is acted on (`specs/Applied.antt`). The laws are what these definitions are good for. The
//! numbering is this profile's own.
//!
//! The straight list is what a perfect network would have brought. What one ask becomes there is
//! `specs/Straightened.antt`: a command for each number that the front passes, a skip for each run of numbers that
//! were given up (`straight_laws`).
#![tactic(auto)]

pub use laws::{
    front_is_least_missing, front_never_falls, no_key_past_window, no_run_past_window,
    refused_changes_nothing, skip_applies_parked_and_gives_up_missing,
};
pub use numbered_content::NumberedContent;
pub use panel_view::PanelView;
pub use plan::Plan;
pub use planning::{plan_command, plan_skip};
pub use points::LAST_NUMBER;
pub use run_needed::{RunNeeded, run_for_command, run_for_skip};
pub use straight_laws::{straightened_by_contents, walk_stays_straight};
pub use verdict::Verdict;

/// How many numbers a panel may use from its next one on: the next one itself, and the 63 after it.
pub const WINDOW: u64 = 64;

/// Of how many numbers below the next one it is remembered what was accepted under them.
pub const REMEMBERED: u64 = 1_000;

mod draining;
mod laws;
mod numbered_content;
mod panel_view;
mod plan;
mod planning;
mod run_needed;
mod straight_laws;
mod verdict;
