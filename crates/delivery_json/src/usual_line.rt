//! What a line of a usual form says, read in one pass.

ghost use Rattle.std.specs.Prelude.{◌≡◌, IfSome, Some, option_and_then};
ghost use Rattle.serde_json.specs.Data.{Members, object};
ghost use Rattle.delivery_json.specs.CommandMembers.{IsReadAs};
ghost use Rattle.delivery_json.specs.DeliveryLine.{delivery_in, json_of};

use crate::command_members::CommandMembers;
use crate::object_members::read_members;
use crate::written_line::written_delivery;
use deliveries::Delivery;
use json::Scratch;
use points::{Content, LOWEST_PRIORITY, text_of};

/// What a line of a usual form says; nothing of any other, or where memory is refused. A line in the form in which the
/// desk writes one itself is compared with that form; a command in another form is read token by token.
pub(crate) fn usual_delivery(scratch: &mut Scratch, line: &[u8]) -> Option<Delivery>
    ensures { IfSome result (λ delivery. option_and_then delivery_in (json_of line.now) ≡ Some delivery) }
{
    match written_delivery(line) {
        Some(delivery) => Some(delivery),
        None => command_by_members(scratch, line),
    }
}

/// The command that the members of a line's object say.
fn command_by_members(scratch: &mut Scratch, line: &[u8]) -> Option<Delivery>
    ensures { IfSome result (λ command. option_and_then delivery_in (json_of line.now) ≡ Some command) }
{
    let members = read_members(scratch, text_of(line)?)?;
    command_of(&members)
}

/// The command that the members of an object say, where there are all that it needs.
fn command_of(members: &CommandMembers) -> Option<Delivery>
    ensures { IfSome result (λ command. (ms : Members) → IsReadAs members.now ms → delivery_in (object ms) ≡ Some command) }
{
    let content = Content {
        point: members.point?,
        priority: members.priority.unwrap_or(i64::from(LOWEST_PRIORITY)),
        value: members.value?,
    };
    Some(Delivery::Command {
        panel: members.panel?,
        number: members.number?,
        content,
    })
}
