//! What the text of a line, or of a body, says.
ghost use Rattle.std.specs.Prelude.{◌≡◌, IfOk, option_and_then};
ghost use Rattle.delivery_json.specs.DeliveryLine.{json_of};
ghost use Rattle.panel.specs.Entries.{content_in, entry_in};
ghost use Rattle.panel.specs.Replies.{reply_in};

use crate::entry::Entry;
use crate::entry_reading::{content_in, entry_in};
use crate::reply_reading::reply_in;
use deliveries::Reply;
use delivery_json::{LineFault, value_of};
use points::Content;
use std::alloc::{AllocError, Global};

/// The reply to a panel that the body of a response says, if it says one. The only error is a failed allocation.
pub fn reply_of(alloc: Global, body: &[u8]) -> Result<Option<Reply>, AllocError>
    ensures { IfOk result (λ read. read ≡ option_and_then reply_in (json_of body.now)) }
{
    match value_of(alloc, body) {
        Ok(value) => Ok(reply_in(&value)),
        Err(LineFault::NotDelivery) => Ok(None),
        Err(LineFault::NotDone(_)) => Err(AllocError),
    }
}

/// The entry that a line of a journal says, without its line end, if it says one. The only error is a failed
/// allocation.
pub fn entry_of(alloc: Global, line: &[u8]) -> Result<Option<Entry>, AllocError>
    ensures { IfOk result (λ read. read ≡ option_and_then entry_in (json_of line.now)) }
{
    match value_of(alloc, line) {
        Ok(value) => Ok(entry_in(&value)),
        Err(LineFault::NotDelivery) => Ok(None),
        Err(LineFault::NotDone(_)) => Err(AllocError),
    }
}

/// The content that a line says: a command without a number. The only error is a failed allocation.
pub fn content_of(alloc: Global, line: &[u8]) -> Result<Option<Content>, AllocError>
    ensures { IfOk result (λ read. read ≡ option_and_then content_in (json_of line.now)) }
{
    match value_of(alloc, line) {
        Ok(value) => Ok(content_in(&value)),
        Err(LineFault::NotDelivery) => Ok(None),
        Err(LineFault::NotDone(_)) => Err(AllocError),
    }
}
