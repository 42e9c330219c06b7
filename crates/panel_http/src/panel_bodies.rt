//! The command and the skip in a JSON object.

ghost use Rattle.std.specs.Prelude.{◌≡◌, option_map};
ghost use Rattle.serde_json.specs.View.{view};
ghost use Rattle.panel_http.specs.RequestBody.{command_by, command_in, command_of, named, skip_by, skip_of};

use crate::request::Request;
use deliveries::Delivery;
use delivery_json::{CommandBody, command_body_in, has_only, lone_integer};
use points::{Name, name_of};
use serde_json::Value;

/// The command in an object, by the panel that a segment of the target names.
pub(crate) fn command_of(panel: Option<&str>, value: &Value) -> Option<Request>
    ensures { result ≡ command_of (named (option_map (λ s. s.now) panel.entry)) (view value.now) }
{
    let command = command_in(value)?;
    Some(command_by(named(panel), command))
}

/// The skip in an object, by the panel that a segment of the target names.
pub(crate) fn skip_of(panel: Option<&str>, value: &Value) -> Option<Request>
    ensures { result ≡ skip_of (named (option_map (λ s. s.now) panel.entry)) (view value.now) }
{
    let upto = lone_integer(value, "upto")?;
    Some(skip_by(named(panel), upto))
}

/// The name that a segment of the target is.
pub(crate) fn named(segment: Option<&str>) -> Option<Name>
    ensures { result ≡ named (option_map (λ s. s.now) segment.entry) }
{
    name_of(segment?)
}

/// What an object has of a command: all but its panel, and nothing else.
#[tactic(auto, unfolding(crate::specs::RequestBody::command_in))]
fn command_in(value: &Value) -> Option<CommandBody>
    ensures { result ≡ command_in (view value.now) }
{
    let members = value.as_object()?;
    let command = command_body_in(value)?;
    if has_only(members, &["number", "point", "priority", "value"]) {
        Some(command)
    } else {
        None
    }
}

/// A command of a panel that the target names.
pub(crate) fn command_by(panel: Option<Name>, command: CommandBody) -> Request
    ensures { result ≡ command_by panel command }
{
    match panel {
        Some(panel) => Request::Delivery(Delivery::Command {
            panel,
            number: command.number,
            content: command.content,
        }),
        None => Request::NoPanel,
    }
}

fn skip_by(panel: Option<Name>, upto: i64) -> Request
    ensures { result ≡ skip_by panel upto }
{
    match panel {
        Some(panel) => Request::Delivery(Delivery::Skip { panel, upto }),
        None => Request::NoPanel,
    }
}
