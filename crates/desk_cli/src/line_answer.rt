//! A line of a list of deliveries, answered.

ghost use Rattle.std.specs.Prelude.{◌≡◌, List, IfErr, OnOk, string_bytes};
ghost use Rattle.deliveries.specs.declared.delivery.Delivery.{Delivery as a_delivery};
ghost use Rattle.deliveries.specs.Delivered.{Holds};
ghost use Rattle.delivery_json.specs.declared.line_fault.LineFault.{LineFault as a_fault};
ghost use Rattle.delivery_json.specs.DeliveryLine.{parse_line};
ghost use Rattle.delivery_json.specs.ReplyText.{refusal_line};
ghost use Rattle.desk_cli.specs.LineAnswer.{AnswersDelivery, AnswersLine, with_text};
ghost use Rattle.store.specs.declared.fault.StoreFault.TheVariants.{NoMemory};

use building_holidays::ImportFault;
use deliveries::Delivery;
use delivery_json::{LineFault, ParsedLine, RefusedImportText, ReplyText, parse_line};
use desk::Desk;
use json::Scratch;
use std::alloc::Global;
use store::Store;

/// Room for the text of nearly every reply, in bytes.
const REPLY_ROOM: usize = 96;

/// Delivers what a line says, and writes the text of the reply with its line end (LF) in place of what `text` has.
///
/// The line is one JSON object without its line end; a CR at its end is white space. A line that
/// is no delivery changes nothing, and so does an import whose holiday list is at fault, which is
/// answered with its refusal. After a lack of memory the desk holds its tables from before the line,
/// or those with the line's delivery. After any fault what `text` has is no reply. One `scratch` and one `text` are lent
/// to each line.
pub fn answer_line<S: Store + Drop>(
    alloc: Global,
    scratch: &mut Scratch,
    text: &mut String,
    desk: &mut Desk<S>,
    line: &[u8],
) -> Result<(), LineFault>
    ensures answers { (earlier : List a_delivery) → (S.standing desk.new.store).is_honest
        → Holds desk.old.building earlier (S.standing desk.old.store)
        → AnswersLine desk.old.building earlier (parse_line desk.old.building line.now)
        (with_text result (string_bytes text.new)) (S.standing desk.new.store) }
    ensures honest { (S.standing desk.new.store).is_honest → (S.standing desk.old.store).is_honest }
    ensures building { desk.new.building ≡ desk.old.building }
{
    match parse_line(alloc, scratch, desk.building(), line) {
        Ok(ParsedLine::Delivery(delivery)) => answer_delivery(text, desk, &delivery),
        Ok(ParsedLine::RefusedImport(fault)) => write_refusal(text, fault),
        Err(fault) => Err(fault),
    }
}

/// Carries out a delivery, and writes the text of the reply.
fn answer_delivery<S: Store + Drop>(
    text: &mut String,
    desk: &mut Desk<S>,
    delivery: &Delivery,
) -> Result<(), LineFault>
    ensures answers { (earlier : List a_delivery) → (S.standing desk.new.store).is_honest
        → Holds desk.old.building earlier (S.standing desk.old.store)
        → AnswersDelivery desk.old.building earlier delivery.now (with_text result (string_bytes text.new)) (S.standing desk.new.store) }
    ensures honest { (S.standing desk.new.store).is_honest → (S.standing desk.old.store).is_honest }
    ensures building { desk.new.building ≡ desk.old.building }
{
    // before the delivery, so that its reply is seldom lost for lack of memory
    text.clear();
    text.reserve(REPLY_ROOM)?;
    let reply = desk.deliver(delivery)?;
    writeln!(text, "{}", ReplyText(reply))?;
    Ok(())
}

/// Writes the text of a holiday list's refusal.
fn write_refusal(text: &mut String, fault: ImportFault) -> Result<(), LineFault>
    ensures written { OnOk result (string_bytes text.new ≡ refusal_line fault) }
    ensures memory { IfErr result (λ given. given ≡ a_fault.NotDone NoMemory) }
{
    text.clear();
    writeln!(text, "{}", RefusedImportText(fault))?;
    Ok(())
}
