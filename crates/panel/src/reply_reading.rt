//! The reply to a panel that an object says.
ghost use Rattle.std.specs.Prelude.{◌≡◌, option_map};
ghost use Rattle.serde_json.specs.View.{view};
ghost use Rattle.panel.specs.Replies.{count_in, differs_in, done_in, forgotten_in, parked_in, refused_in, reply_in};
ghost use Rattle.panel.specs.Replies.{reply_of, rule_of, skip_in, skipped_in, text_in, too_far_in, waiting_of, whole_in};

use deliveries::Reply;
use points::{Answer, Rule};
use serde_json::Value;

/// The whole number under a key.
pub(crate) fn whole_in(value: &Value, key: &str) -> Option<i64>
    ensures { result ≡ whole_in key.now (view value.now) }
{
    value.get(key)?.as_i64()
}

/// The number under a key that is not below 0.
pub(crate) fn count_in(value: &Value, key: &str) -> Option<u64>
    ensures { result ≡ count_in key.now (view value.now) }
{
    value.get(key)?.as_u64()
}

fn text_in<'a>(value: &'a Value, key: &str) -> Option<&'a str>
    ensures { option_map (λ text. text.now) result ≡ text_in key.now (view value.now) }
{
    value.get(key)?.as_str()
}

fn rule_of(code: &str) -> Option<Rule>
    ensures { result ≡ rule_of code.now }
{
    if code == "X1" {
        Some(Rule::NoSuchPoint)
    } else if code == "X2" {
        Some(Rule::NotGranted)
    } else if code == "X3" {
        Some(Rule::NoSuchPriority)
    } else if code == "X4" {
        Some(Rule::ReservedPriority)
    } else if code == "X5" {
        Some(Rule::PriorityNotGranted)
    } else if code == "X6" {
        Some(Rule::OutsideKind)
    } else {
        None
    }
}

#[tactic(auto, unfolding(crate::specs::Replies::done_in))]
fn done_in(value: &Value) -> Option<Reply>
    ensures { result ≡ done_in (view value.now) }
{
    let number = whole_in(value, "number")?;
    let present = whole_in(value, "present")?;
    let priority = count_in(value, "priority")?;
    if priority < 256 {
        let answer = Answer::Done {
            present,
            priority: priority as u8,
        };
        Some(Reply::Answered { number, answer })
    } else {
        None
    }
}

#[tactic(auto, unfolding(crate::specs::Replies::refused_in))]
fn refused_in(value: &Value) -> Option<Reply>
    ensures { result ≡ refused_in (view value.now) }
{
    let number = whole_in(value, "number")?;
    let code = text_in(value, "rule")?;
    let rule = rule_of(code)?;
    Some(Reply::Answered {
        number,
        answer: Answer::Refused(rule),
    })
}

#[tactic(auto, unfolding(crate::specs::Replies::parked_in))]
fn parked_in(value: &Value) -> Option<Reply>
    ensures { result ≡ parked_in (view value.now) }
{
    let next = count_in(value, "next")?;
    let number = whole_in(value, "number")?;
    Some(Reply::Parked { next, number })
}

#[tactic(auto, unfolding(crate::specs::Replies::too_far_in))]
fn too_far_in(value: &Value) -> Option<Reply>
    ensures { result ≡ too_far_in (view value.now) }
{
    let next = count_in(value, "next")?;
    let number = whole_in(value, "number")?;
    Some(Reply::TooFar { next, number })
}

#[tactic(auto, unfolding(crate::specs::Replies::skip_in))]
fn skip_in(value: &Value) -> Option<Reply>
    ensures { result ≡ skip_in (view value.now) }
{
    let next = count_in(value, "next")?;
    Some(Reply::SkipDone { next })
}

#[tactic(auto, unfolding(crate::specs::Replies::skipped_in))]
fn skipped_in(value: &Value) -> Option<Reply>
    ensures { result ≡ skipped_in (view value.now) }
{
    let number = whole_in(value, "number")?;
    Some(Reply::Skipped { number })
}

#[tactic(auto, unfolding(crate::specs::Replies::forgotten_in))]
fn forgotten_in(value: &Value) -> Option<Reply>
    ensures { result ≡ forgotten_in (view value.now) }
{
    let number = whole_in(value, "number")?;
    Some(Reply::Forgotten { number })
}

#[tactic(auto, unfolding(crate::specs::Replies::differs_in))]
fn differs_in(value: &Value) -> Option<Reply>
    ensures { result ≡ differs_in (view value.now) }
{
    let number = whole_in(value, "number")?;
    Some(Reply::Differs { number })
}

fn waiting_of(answer: &str, value: &Value) -> Option<Reply>
    ensures { result ≡ waiting_of answer.now (view value.now) }
{
    if answer == "parked" {
        parked_in(value)
    } else if answer == "too_far" {
        too_far_in(value)
    } else if answer == "skip" {
        skip_in(value)
    } else if answer == "no_panel" {
        Some(Reply::NoPanel)
    } else if answer == "bad_number" {
        Some(Reply::BadNumber)
    } else {
        None
    }
}

fn reply_of(answer: &str, value: &Value) -> Option<Reply>
    ensures { result ≡ reply_of answer.now (view value.now) }
{
    if answer == "done" {
        done_in(value)
    } else if answer == "refused" {
        refused_in(value)
    } else if answer == "skipped" {
        skipped_in(value)
    } else if answer == "forgotten" {
        forgotten_in(value)
    } else if answer == "differs" {
        differs_in(value)
    } else {
        waiting_of(answer, value)
    }
}

/// The reply to a panel that an object says.
#[tactic(auto, unfolding(crate::specs::Replies::reply_in))]
pub(crate) fn reply_in(value: &Value) -> Option<Reply>
    ensures { result ≡ reply_in (view value.now) }
{
    let answer = text_in(value, "answer")?;
    reply_of(answer, value)
}
