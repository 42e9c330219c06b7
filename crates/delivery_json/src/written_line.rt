//! The delivery of a line in the form in which `line_of_delivery` writes one.

ghost use Rattle.std.specs.Prelude.{◌≡◌, ◌++◌, ℕ, List, IfSome, IsTrue, Some, codes, option_and_then};
ghost use Rattle.std.specs.Fmt.{signed_decimal};
ghost use Rattle.points.specs.Name.{IsName};
ghost use Rattle.points.specs.Texts.{text_of};
ghost use Rattle.delivery_json.specs.CommandMembers.{IsBody};
ghost use Rattle.delivery_json.specs.DeliveryLine.{delivery_in, json_of};
ghost use Rattle.delivery_json.specs.DeliveryText.{content_text, value_text};

use crate::panel_line::CommandBody;
use deliveries::Delivery;
use itoa::Buffer;
use memchr::memchr;
use points::{Content, Name, name_of, text_of};

/// The delivery of a line, without its line end, that is written as `line_of_delivery` writes one: compact, its keys in
/// byte order, each number in the fewest digits. Nothing of a line of any other form, or of an import.
pub fn written_delivery(line: &[u8]) -> Option<Delivery>
    ensures { IfSome result (λ delivery. option_and_then delivery_in (json_of line.now) ≡ Some delivery) }
{
    let text = text_of(line)?;
    if let Some(rest) = after("{\"number\":", text) {
        return command_to_end(rest);
    }
    if let Some(rest) = after("{\"panel\":\"", text) {
        return skip_to_end(rest);
    }
    tick_to_end(after("{\"tick\":", text)?)
}

/// The command of which this is the text, but for its beginning up to the number.
fn command_to_end(text: &str) -> Option<Delivery>
    ensures { IfSome result (λ command. (line : List ℕ) → text_of line ≡ Some line → line ≡ codes "{\"number\":" ++ text.now
        → option_and_then delivery_in (json_of line) ≡ Some command) }
{
    let (number, rest) = integer_before(b',', text)?;
    let rest = after(",\"panel\":\"", rest)?;
    let (panel, rest) = split_before(b'"', rest)?;
    let panel = name_in(panel)?;
    let rest = after("\",", rest)?;
    let content = content_to_end(rest)?;
    Some(Delivery::Command {
        panel,
        number,
        content,
    })
}

/// The skip of which this is the text, but for its beginning up to the panel.
fn skip_to_end(text: &str) -> Option<Delivery>
    ensures { IfSome result (λ skip. (line : List ℕ) → text_of line ≡ Some line → line ≡ codes "{\"panel\":\"" ++ text.now
        → option_and_then delivery_in (json_of line) ≡ Some skip) }
{
    let (panel, rest) = split_before(b'"', text)?;
    let panel = name_in(panel)?;
    let rest = after("\",\"skip\":", rest)?;
    let upto = integer_to_end(rest)?;
    Some(Delivery::Skip { panel, upto })
}

/// The tick of which this is the text, but for its beginning up to the moment.
fn tick_to_end(text: &str) -> Option<Delivery>
    ensures { IfSome result (λ tick. (line : List ℕ) → text_of line ≡ Some line → line ≡ codes "{\"tick\":" ++ text.now
        → option_and_then delivery_in (json_of line) ≡ Some tick) }
{
    let at = integer_to_end(text)?;
    Some(Delivery::Tick { at })
}

/// The command in a text without its panel, written in the same way: an object of its number and its content. Nothing of
/// a text of any other form, which may say a command too.
pub fn written_body(body: &[u8]) -> Option<CommandBody>
    ensures { IfSome result (λ command. IsBody (json_of body.now) command) }
{
    let text = text_of(body)?;
    let rest = after("{\"number\":", text)?;
    let (number, rest) = integer_before(b',', rest)?;
    let rest = after(",", rest)?;
    let content = content_to_end(rest)?;
    Some(CommandBody { number, content })
}

/// The content of a command that fills a text, with the brace that closes its object.
fn content_to_end(text: &str) -> Option<Content>
    ensures { IfSome result (λ content. (text.now ≡ content_text content ++ codes "}") × IsName content.point) }
{
    let rest = after("\"point\":\"", text)?;
    let (point, rest) = split_before(b'"', rest)?;
    let point = name_in(point)?;
    let rest = after("\",\"priority\":", rest)?;
    let (priority, rest) = integer_before(b',', rest)?;
    let rest = after(",\"value\":", rest)?;
    let value = value_to_end(rest)?;
    Some(Content {
        point,
        priority,
        value,
    })
}

/// The value that fills a text, with the brace that closes its object.
fn value_to_end(text: &str) -> Option<Option<i64>>
    ensures { IfSome result (λ value. text.now ≡ value_text value ++ codes "}") }
{
    if text == "null}" {
        return Some(None);
    }
    Some(Some(integer_to_end(text)?))
}

/// The integer that fills a text, with the brace that closes its object.
fn integer_to_end(text: &str) -> Option<i64>
    ensures { IfSome result (λ number. text.now ≡ signed_decimal number ++ codes "}") }
{
    let (number, rest) = integer_before(b'}', text)?;
    if rest == "}" { Some(number) } else { None }
}

/// What follows a mark at the beginning of a text.
fn after<'a>(mark: &str, text: &'a str) -> Option<&'a str>
    ensures { IfSome result (λ rest. text.now ≡ mark.now ++ rest.now) }
{
    text.strip_prefix(mark)
}

/// A text up to the first such character, and from there on.
fn split_before(end: u8, text: &str) -> Option<(&str, &str)>
    ensures { IfSome result (λ it. text.now ≡ it.0.now ++ it.1.now) }
{
    text.split_at_checked(memchr(end, text.as_bytes())?)
}

/// The name that a text is.
fn name_in(text: &str) -> Option<Name>
    ensures { IfSome result (λ name. (text.now ≡ name) × IsName name) }
{
    name_of(text)
}

/// The integer from the beginning of a text up to the first such byte, and the text from there on. It is none where it
/// has a sign or zeros that it does not need.
fn integer_before(end: u8, text: &str) -> Option<(i64, &str)>
    ensures { IfSome result (λ it. text.now ≡ signed_decimal it.0 ++ it.1.now) }
{
    let (digits, rest) = split_before(end, text)?;
    let number = digits.parse::<i64>().ok()?;
    if is_written_as(digits, number) {
        Some((number, rest))
    } else {
        None
    }
}

/// Whether a text is what the desk writes for a number.
fn is_written_as(text: &str, number: i64) -> bool
    ensures { IsTrue result → text.now ≡ signed_decimal number }
{
    let mut written = Buffer::new();
    written.format(number) == text
}
