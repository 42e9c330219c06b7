//! The entry of a journal in an object.
ghost use Rattle.std.specs.Prelude.{◌≡◌};
ghost use Rattle.serde_json.specs.View.{view};
ghost use Rattle.delivery_json.specs.Readings.{name_in, priority_in, value_in};
ghost use Rattle.panel.specs.Entries.{began_in, content_in, entry_in, gave_up_in, heard_in, pressed_in, entry_with_first};
ghost use Rattle.panel.specs.Entries.{entry_with_give_up};

use crate::entry::Entry;
use crate::reply_reading::{count_in, reply_in};
use delivery_json::{name_in, priority_in, value_in};
use points::Content;
use serde_json::Value;

/// The content of a command in an object, whatever other keys it has.
#[tactic(auto, unfolding(crate::specs::Entries::content_in))]
pub(crate) fn content_in(value: &Value) -> Option<Content>
    ensures { result ≡ content_in (view value.now) }
{
    let point = name_in(value.get("point")?)?;
    let priority = priority_in(value.get("priority"))?;
    let value = value_in(value.get("value")?)?;
    Some(Content {
        point,
        priority,
        value,
    })
}

#[tactic(auto, unfolding(crate::specs::Entries::pressed_in))]
fn pressed_in(value: &Value) -> Option<Entry>
    ensures { result ≡ pressed_in (view value.now) }
{
    let number = count_in(value, "number")?;
    let content = content_in(value)?;
    Some(Entry::Pressed { number, content })
}

#[tactic(auto, unfolding(crate::specs::Entries::began_in))]
fn began_in(value: &Value) -> Option<Entry>
    ensures { result ≡ began_in (view value.now) }
{
    let first = count_in(value, "first")?;
    let panel = name_in(value.get("panel")?)?;
    Some(Entry::Began { panel, first })
}

#[tactic(auto, unfolding(crate::specs::Entries::gave_up_in))]
fn gave_up_in(value: &Value) -> Option<Entry>
    ensures { result ≡ gave_up_in (view value.now) }
{
    let number = count_in(value, "give_up")?;
    Some(Entry::GaveUp { number })
}

#[tactic(auto, unfolding(crate::specs::Entries::heard_in))]
fn heard_in(value: &Value) -> Option<Entry>
    ensures { result ≡ heard_in (view value.now) }
{
    let reply = reply_in(value)?;
    Some(Entry::Heard { reply })
}

/// The entry in an object.
#[tactic(auto, unfolding(crate::specs::Entries::entry_in))]
pub(crate) fn entry_in(value: &Value) -> Option<Entry>
    ensures { result ≡ entry_in (view value.now) }
{
    if value.get("answer").is_some() {
        heard_in(value)
    } else if value.get("give_up").is_some() {
        gave_up_in(value)
    } else if value.get("first").is_some() {
        began_in(value)
    } else {
        pressed_in(value)
    }
}
