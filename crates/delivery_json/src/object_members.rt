//! The members of a command's object, read in one pass.
ghost use Rattle.std.specs.Prelude.{◌≡◌, IfSome, Some, length};
ghost use Rattle.json.specs.Json.{members, value};
ghost use Rattle.serde_json.specs.Data.{Members, no_members, object};
ghost use Rattle.serde_json.specs.Read.{converted, of_members, read};
ghost use Rattle.delivery_json.specs.CommandMembers.{IsReadAs};

use crate::command_members::CommandMembers;
use json::{Reader, Scratch, Token};

/// The members of a text that is an object of the usual form; nothing of any other, or where memory is refused.
/// `scratch` is the memory that the reading needs: one is lent to each reading, since to make it costs more than a
/// text.
pub fn read_members(scratch: &mut Scratch, text: &str) -> Option<CommandMembers>
    ensures { IfSome result (λ parsed. (ms : Members) × (read text.now ≡ Some (object ms)) × IsReadAs parsed ms) }
{
    let mut reader = Reader::new(text, scratch).ok()?;
    let Some(Token::BeginObject) = reader.next() else {
        return None;
    };
    let parsed = members_to_end(&mut reader)?;
    match reader.next() {
        None => Some(parsed),
        Some(_) => None,
    }
}

/// The members of an object that has been opened, up to its end.
fn members_to_end(reader: &mut Reader<'_>) -> Option<CommandMembers>
    ensures { IfSome result (λ parsed. (ms : Members)
        × (converted (λ js. of_members js no_members) (members (value 126) (length reader.old) reader.old)
        ≡ Some (ms, reader.new)) × IsReadAs parsed ms) }
{
    let mut parsed = CommandMembers::none();
    'members: while let Some(key) = reader.next_key().ok()? {
        let token = reader.next()?;
        parsed.take(key, &token)?;
    }
    Some(parsed)
}
