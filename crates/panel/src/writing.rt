//! The line of an entry.
ghost use Rattle.std.specs.Prelude.{◌≡◌, ◌++◌, IfOk, OnOk, Some, [], ◌∷◌, string_bytes};
ghost use Rattle.serde_json.specs.Read.{read};
ghost use Rattle.serde_json.specs.View.{view};
ghost use Rattle.serde_json.specs.Written.{compact_text};
ghost use Rattle.panel.specs.EntryData.{answer_data, entry_data, numbered_data, next_data, reply_data, value_data};

use crate::entry::Entry;
use deliveries::Reply;
use points::{Answer, Content};
use serde_json::{Value, json};
use std::alloc::{AllocError, Global};

fn answer_value(alloc: Global, number: i64, answer: &Answer) -> Result<Value, AllocError>
    ensures { IfOk result (λ value. view value ≡ answer_data number answer.now) }
{
    match *answer {
        Answer::Done { present, priority } => json!(in alloc; {
            "answer": "done",
            "number": number,
            "present": present,
            "priority": priority
        }),
        Answer::Refused(rule) => {
            let code = rule.to_string(alloc)?;
            json!(in alloc; { "answer": "refused", "number": number, "rule": code })
        }
    }
}

fn numbered_value(alloc: Global, answer: &str, number: i64) -> Result<Value, AllocError>
    ensures { IfOk result (λ value. view value ≡ numbered_data answer.now number) }
{
    json!(in alloc; { "answer": answer, "number": number })
}

fn next_value(alloc: Global, answer: &str, next: u64, number: i64) -> Result<Value, AllocError>
    ensures { IfOk result (λ value. view value ≡ next_data answer.now next number) }
{
    json!(in alloc; { "answer": answer, "next": next, "number": number })
}

fn reply_value(alloc: Global, reply: &Reply) -> Result<Value, AllocError>
    ensures { IfOk result (λ value. view value ≡ reply_data reply.now) }
{
    match reply {
        Reply::Answered { number, answer } => answer_value(alloc, *number, answer),
        Reply::Skipped { number } => numbered_value(alloc, "skipped", *number),
        Reply::Forgotten { number } => numbered_value(alloc, "forgotten", *number),
        Reply::Differs { number } => numbered_value(alloc, "differs", *number),
        Reply::Parked { next, number } => next_value(alloc, "parked", *next, *number),
        Reply::TooFar { next, number } => next_value(alloc, "too_far", *next, *number),
        Reply::SkipDone { next } => {
            let next = *next;
            json!(in alloc; { "answer": "skip", "next": next })
        }
        Reply::NoPanel => json!(in alloc; { "answer": "no_panel" }),
        Reply::BadNumber => json!(in alloc; { "answer": "bad_number" }),
        _ => json!(in alloc; { "answer": "other" }),
    }
}

fn value_value(value: Option<i64>) -> Value
    ensures { view result ≡ value_data value }
{
    match value {
        Some(value) => Value::from(value),
        None => Value::Null,
    }
}

fn pressed_value(alloc: Global, number: u64, content: &Content) -> Result<Value, AllocError>
    ensures { IfOk result (λ value. view value ≡ entry_data (Entry.Pressed number content.now)) }
{
    let value = value_value(content.value);
    json!(in alloc; {
        "number": number,
        "point": content.point.as_str(),
        "priority": content.priority,
        "value": value
    })
}

fn entry_value(alloc: Global, entry: &Entry) -> Result<Value, AllocError>
    ensures { IfOk result (λ value. view value ≡ entry_data entry.now) }
{
    match entry {
        Entry::Began { panel, first } => {
            let first = *first;
            json!(in alloc; { "first": first, "panel": panel.as_str() })
        }
        Entry::Pressed { number, content } => pressed_value(alloc, *number, content),
        Entry::Heard { reply } => reply_value(alloc, reply),
        Entry::GaveUp { number } => {
            let number = *number;
            json!(in alloc; { "give_up": number })
        }
    }
}

/// The line of an entry, with its line end (LF): one JSON object, compact, which is read back as the entry's object.
/// The only error is lack of memory.
pub fn line_of(alloc: Global, entry: &Entry) -> Result<String, AllocError>
    ensures text { IfOk result (λ line. string_bytes line ≡ compact_text (entry_data entry.now) ++ 10 ∷ []) }
    ensures reads_back { OnOk result (read (compact_text (entry_data entry.now)) ≡ Some (entry_data entry.now)) }
{
    let mut line = entry_value(alloc, entry)?.to_string(alloc)?;
    line.push_str("\n")?;
    Ok(line)
}
