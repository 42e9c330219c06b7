//! Where a list is read no further.

ghost use Rattle.std.specs.Prelude.{◌≡◌, IfOk};
ghost use Rattle.desk_cli.specs.Replay.{is_past_until, is_parsed_past};

use building::Building;
use cli_common::RunFault;
use deliveries::Delivery;
use delivery_json::{LineFault, ParsedLine, parse_line};
use json::Scratch;
use std::alloc::Global;

/// Whether it is a tick later than `until`.
fn is_parsed_past(until: i64, parsed: &ParsedLine) -> bool
    ensures { result ≡ is_parsed_past until parsed.now }
{
    match parsed {
        ParsedLine::Delivery(Delivery::Tick { at }) => until < *at,
        _ => false,
    }
}

/// Whether a line has a tick later than `until`, where there is a moment to stop at. Another line does not, whatever it
/// is.
pub(crate) fn is_past<'a>(
    alloc: Global,
    scratch: &mut Scratch,
    building: &Building,
    until: Option<i64>,
    line: &[u8],
) -> Result<bool, RunFault<'a>>
    ensures { IfOk result (λ is_past. is_past ≡ is_past_until building.now until line.now) }
{
    let Some(until) = until else {
        return Ok(false);
    };
    match parse_line(alloc, scratch, building, line) {
        Ok(parsed) => Ok(is_parsed_past(until, &parsed)),
        Err(LineFault::NotDelivery) => Ok(false),
        Err(LineFault::NotDone(fault)) => Err(RunFault::from(fault)),
    }
}
