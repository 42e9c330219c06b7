//! The reply to a delivery.
ghost use Rattle.std.specs.Prelude.{◌≡◌, Ok};
ghost use Rattle.desk_commands.specs.Carried.{Replies};

use deliveries::Reply;
use points::{Answer, CommandState};
use store::StoreFault;
use window::Verdict;

/// The reply on a verdict, with the next number before the delivery, the one after it, the number that the
/// delivery has, and the answer of the first command that it acts on. A delivery that applies acts on one: where it
/// doesn't, the tables are no desk's (S5).
pub fn reply_on(
    verdict: Verdict,
    next: u64,
    after: u64,
    number: i64,
    answer: Option<Answer>,
) -> Result<Reply, StoreFault>
    ensures { Replies verdict next after number answer result }
{
    Ok(match verdict {
        Verdict::Applies => Reply::Answered {
            number,
            answer: answer.ok_or(StoreFault::BadRow)?,
        },
        Verdict::Parked | Verdict::Repeat(CommandState::Parked) => Reply::Parked { next, number },
        Verdict::Repeat(CommandState::Answered(kept)) => Reply::Answered {
            number,
            answer: kept,
        },
        Verdict::Skipped => Reply::Skipped { number },
        Verdict::Differs => Reply::Differs { number },
        Verdict::TooFar => Reply::TooFar { next, number },
        Verdict::SkipDone => Reply::SkipDone { next: after },
        Verdict::Forgotten => Reply::Forgotten { number },
    })
}
