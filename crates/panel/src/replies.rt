//! What a reply of the desk changes at a panel's end.
ghost use Rattle.std.specs.Prelude.{◌≡◌, ◌≤◌, ◌==◌, not, vec_len};
ghost use Rattle.std.specs.List.{filter, find};
ghost use Rattle.panel.specs.Run.{reach_after, skip_after};
ghost use Rattle.panel.specs.Means.{ended_by, natural};

use deliveries::Reply;
use window::{LAST_NUMBER, NumberedContent, WINDOW};

fn natural(number: i64) -> Option<u64>
    ensures { result ≡ natural number }
{
    u64::try_from(number).ok()
}

/// The number of the command that hears its last with a reply.
pub fn ended_by(reply: &Reply) -> Option<u64>
    ensures { result ≡ ended_by reply.now }
{
    match *reply {
        Reply::Answered { number, .. } => natural(number),
        Reply::Skipped { number } => natural(number),
        Reply::Forgotten { number } => natural(number),
        Reply::Differs { number } => natural(number),
        _ => None,
    }
}

/// What is left to give up after a reply.
pub fn skip_after(reply: &Reply, skip: Option<u64>) -> Option<u64>
    ensures { result ≡ skip_after reply.now skip }
{
    let upto = skip?;
    match *reply {
        Reply::SkipDone { next } if upto <= next => None,
        _ => Some(upto),
    }
}

/// How far a skip may go after a reply.
pub fn reach_after(reply: &Reply, reach: u64) -> u64
    ensures { result ≡ reach_after reply.now reach }
{
    match *reply {
        Reply::SkipDone { next } | Reply::TooFar { next, .. } => {
            next.saturating_add(WINDOW).min(LAST_NUMBER + 1)
        }
        _ => reach,
    }
}

/// The entry of a number, if there is one.
pub fn find_entry(entries: &[NumberedContent], number: u64) -> Option<NumberedContent>
    ensures { result ≡ find (λ entry. entry.number == number) entries.now }
{
    entries.iter().find(|entry| entry.number == number).copied()
}

/// Removes each entry of a number.
pub fn remove_entry(entries: &mut Vec<NumberedContent>, number: u64)
    ensures others { entries.new.items ≡ filter (λ entry. not (entry.number == number)) entries.old.items }
    ensures len { vec_len entries.new ≤ vec_len entries.old }
{
    entries.retain(|entry| entry.number != number);
}
