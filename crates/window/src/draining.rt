//! The commands that a number or a skip sets free.
ghost use Rattle.std.specs.Prelude.{◌≡◌, ◌+◌, ◌++◌, ◌≤◌, None, IfOk};
ghost use Rattle.window.specs.Drain.{contents_of, end_of};
ghost use Rattle.points.specs.declared.numbered_row.TheConstants.{LAST_NUMBER};

use crate::LAST_NUMBER;
use crate::numbered_content::NumberedContent;
use crate::plan::Plan;
use crate::verdict::Verdict;
use points::{Listing, NumberedRow};
use std::alloc::AllocError;

/// The plan that acts on `contents` and then on the rows of a run, and ends at the first number, at or past
/// `upto`, that the run lacks.
pub fn drained(
    mut contents: Vec<NumberedContent>,
    run: &[NumberedRow],
    upto: u64,
    verdict: Verdict,
) -> Result<Plan, AllocError>
    requires { upto ≤ LAST_NUMBER + 1 }
    ensures { IfOk result (λ plan. plan ≡ record {
      next = end_of upto run.now;
      apply = contents.items ++ contents_of run.now;
      park = None;
      verdict = verdict;
    }) }
{
    let mut next = upto;
    for entry in run {
        contents.push(NumberedContent {
            number: entry.number,
            content: entry.row.content,
        })?;
        if entry.number == next {
            next += 1;
        }
    }
    Ok(Plan {
        next,
        apply: Listing::from_vec(contents),
        park: None,
        verdict,
    })
}
