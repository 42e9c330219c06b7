//! Which rows a plan can need.
ghost use Rattle.std.specs.Prelude.{◌≡◌, ◌≤◌};
ghost use Rattle.window.specs.RunNeeded.{run_behind, run_over};
ghost use Rattle.points.specs.declared.numbered_row.TheConstants.{LAST_NUMBER};

use crate::{LAST_NUMBER, WINDOW};

/// Where a run of rows begins, and up to where it goes at least: from `upto` on it goes as far as the rows
/// follow without gap.
#[derive(Clone, Copy)]
pub struct RunNeeded {
    pub from: u64,
    /// `from` or more.
    pub upto: u64,
}

/// The run that the view must have for a command with a number up to 1,000,000,000,000, if it needs one.
pub fn run_for_command(next: u64, number: u64) -> Option<RunNeeded>
    requires { number ≤ LAST_NUMBER }
    ensures { result ≡ run_behind next number }
{
    if number == next {
        Some(RunNeeded {
            from: number + 1,
            upto: number + 1,
        })
    } else {
        None
    }
}

/// The run that the view must have for a skip, if it needs one.
#[tactic(auto, unfolding(crate::specs::Window::window))]
pub fn run_for_skip(next: u64, upto: u64) -> Option<RunNeeded>
    ensures { result ≡ run_over next upto }
{
    if next < upto && upto - next <= WINDOW {
        Some(RunNeeded { from: next, upto })
    } else {
        None
    }
}
