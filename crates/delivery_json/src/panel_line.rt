//! The command or the skip in an object.

ghost use Rattle.std.specs.Prelude.{◌≡◌, option_map};
ghost use Rattle.serde_json.specs.Find.{get};
ghost use Rattle.serde_json.specs.View.{view};
ghost use Rattle.delivery_json.specs.PanelLine.{command_in, name_in, command_body_in, panel_delivery_in, priority_in};
ghost use Rattle.delivery_json.specs.PanelLine.{skip_in, value_in};

use crate::members::{has_only, integer_in};
use deliveries::Delivery;
use points::{Content, LOWEST_PRIORITY, Name, name_of};
use serde_json::Value;

/// The content of a command, under its number.
#[derive(Clone, Copy)]
pub struct CommandBody {
    pub number: i64,
    pub content: Content,
}

/// What a panel sends by an object.
#[tactic(auto, unfolding(crate::specs::PanelLine::panel_delivery_in))]
pub(crate) fn panel_delivery_in(value: &Value) -> Option<Delivery>
    ensures { result ≡ panel_delivery_in (view value.now) }
{
    match value.get("skip") {
        Some(_) => skip_in(value),
        None => command_in(value),
    }
}

/// The skip in an object.
#[tactic(auto, unfolding(crate::specs::PanelLine::skip_in))]
fn skip_in(value: &Value) -> Option<Delivery>
    ensures { result ≡ skip_in (view value.now) }
{
    let members = value.as_object()?;
    let panel = name_in(value.get("panel")?)?;
    let upto = integer_in(value.get("skip")?)?;
    if has_only(members, &["panel", "skip"]) {
        Some(Delivery::Skip { panel, upto })
    } else {
        None
    }
}

/// The command in an object.
#[tactic(auto, unfolding(crate::specs::PanelLine::command_in))]
fn command_in(value: &Value) -> Option<Delivery>
    ensures { result ≡ command_in (view value.now) }
{
    let members = value.as_object()?;
    let panel = name_in(value.get("panel")?)?;
    let CommandBody { number, content } = command_body_in(value)?;
    if has_only(members, &["number", "panel", "point", "priority", "value"]) {
        Some(Delivery::Command {
            panel,
            number,
            content,
        })
    } else {
        None
    }
}

/// What an object says of a command beside its panel, whatever other keys it has.
#[tactic(auto, unfolding(crate::specs::PanelLine::command_body_in))]
pub fn command_body_in(value: &Value) -> Option<CommandBody>
    ensures { result ≡ command_body_in (view value.now) }
{
    let number = integer_in(value.get("number")?)?;
    let point = name_in(value.get("point")?)?;
    let priority = priority_in(value.get("priority"))?;
    let content = Content {
        point,
        priority,
        value: value_in(value.get("value")?)?,
    };
    Some(CommandBody { number, content })
}

/// The name that a text is.
pub fn name_in(value: &Value) -> Option<Name>
    ensures { result ≡ name_in (view value.now) }
{
    name_of(value.as_str()?)
}

/// A number, or null for NULL (`None` within).
pub fn value_in(value: &Value) -> Option<Option<i64>>
    ensures { result ≡ value_in (view value.now) }
{
    match value {
        Value::Null => Some(None),
        _ => Some(Some(value.as_i64()?)),
    }
}

/// The priority, which is 16 where it is missing or null.
pub fn priority_in(value: Option<&Value>) -> Option<i64>
    ensures { result ≡ priority_in (option_map (λ v. view v.now) value.entry) }
{
    match value {
        Some(value) => Some(value_in(value)?.unwrap_or(i64::from(LOWEST_PRIORITY))),
        None => Some(i64::from(LOWEST_PRIORITY)),
    }
}
