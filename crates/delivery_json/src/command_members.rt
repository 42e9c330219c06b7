//! What an object has under a command's keys.
ghost use Rattle.std.specs.Prelude.{◌≡◌, IfSome, Some};
ghost use Rattle.json.specs.Reads.{token_of};
ghost use Rattle.serde_json.specs.Data.{Data, Members, no_members, put};
ghost use Rattle.delivery_json.specs.CommandMembers.{IsReadAs};
ghost use Rattle.delivery_json.specs.Scalars.{scalar_of};

use crate::scalars::{integer_of, name_of_token, value_of};
use json::Token;
use points::{LOWEST_PRIORITY, Name};

/// What an object has under the keys of a command, as far as it was read.
#[derive(Clone, Copy)]
pub struct CommandMembers {
    pub number: Option<i64>,
    pub panel: Option<Name>,
    pub point: Option<Name>,
    /// The lowest priority, 16, where it is null.
    pub priority: Option<i64>,
    /// A number, or null for NULL.
    pub value: Option<Option<i64>>,
}

impl CommandMembers {
    /// Those of an object that has no member yet.
    pub(crate) fn none() -> Self
        ensures { IsReadAs result no_members }
    {
        CommandMembers {
            number: None,
            panel: None,
            point: None,
            priority: None,
            value: None,
        }
    }

    /// Takes a member, in the place of one with its key; nothing where it is not one of a command of the usual form.
    pub(crate) fn take(&mut self, key: &str, token: &Token<'_>) -> Option<()>
        ensures { IfSome result (λ _. (d : Data) × (scalar_of (token_of token.now) ≡ Some d)
            × ((ms : Members) → IsReadAs self.old ms → IsReadAs self.new (put key.now d ms))) }
    {
        match key {
            "number" => self.number = Some(integer_of(token)?),
            "panel" => self.panel = Some(name_of_token(token)?),
            "point" => self.point = Some(name_of_token(token)?),
            "priority" => self.priority = Some(value_of(token)?.unwrap_or(i64::from(
                LOWEST_PRIORITY,
            ))),
            "value" => self.value = Some(value_of(token)?),
            _ => return None,
        }
        Some(())
    }
}
