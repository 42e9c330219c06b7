//! The deliveries of a list.

ghost use Rattle.std.specs.Prelude.{◌≡◌, List, ℕ, [], ◌∷◌, ◌++◌, IfOk, OnOk, Some};
ghost use Rattle.std.specs.Io.Buffered.{reader_remaining};
ghost use Rattle.cli_common.specs.Input.{bytes_of};
ghost use Rattle.desk_cli.specs.ListLines.{Collects, tells};
ghost use Rattle.desk_cli.specs.Replay.{Opens, lines_of, lines_until};

use crate::list_end::is_past;
use crate::list_lines::{is_empty, read_line};
use building::Building;
use cli_common::{ListInput, RunFault};
use deliveries::Delivery;
use delivery_json::{LineFault, ParsedLine, parse_line};
use json::Scratch;
use std::alloc::{AllocError, Global};
use std::io::{self, BufReader, Read};

/// Opens a list, and reads its deliveries. Empty lines are passed over, also with a CR, and so is an import whose
/// holiday list is at fault. Where `until` is a moment, in hundredths of a second since 1970-01-01T00:00:00Z, the list
/// ends before its first line that has a tick later than it, and that line and those after it are not looked at. A file
/// that can't be read, a line that is no delivery, and lack of memory are the faults.
pub fn list_deliveries<'a, D: Read + Drop, O>(
    alloc: Global,
    building: &Building,
    list: ListInput<'a, O>,
    until: Option<i64>,
) -> Result<Vec<Delivery>, RunFault<'a>>
where
    O: FnOnce() -> io::Result<BufReader<D>>,
    requires { O.IsAlwaysCallable list.open }
    ensures { IfOk result (λ deliveries. (bytes : List ℕ)
        → Opens (O.post list.entry.open) (bytes_of (reader_remaining D.remaining)) bytes
        → Collects building.now (lines_until building.now until (lines_of bytes)) [] deliveries.items) }
{
    let ListInput { path, open } = list;
    match open() {
        Ok(reader) => read_deliveries(alloc, building, path, reader, until),
        Err(error) => Err(RunFault::of_read(&error, path)),
    }
}

/// The deliveries of each line that the reader of the file of this path has left, up to a moment, as `list_deliveries`
/// reads them.
pub fn read_deliveries<'a, D: Read + Drop>(
    alloc: Global,
    building: &Building,
    path: &'a str,
    mut reader: BufReader<D>,
    until: Option<i64>,
) -> Result<Vec<Delivery>, RunFault<'a>>
    ensures { IfOk result (λ deliveries. (bytes : List ℕ) → reader_remaining D.remaining reader ≡ Some bytes
        → Collects building.now (lines_until building.now until (lines_of bytes)) [] deliveries.items) }
{
    let mut scratch = Scratch::new(alloc);
    let mut line = Vec::new(alloc);
    let mut deliveries = Vec::new(alloc);
    for number in 1..u64::MAX {
        let is_line = read_line(path, &mut reader, &mut line)?;
        if !is_line {
            return Ok(deliveries);
        }
        let is_past = is_past(alloc, &mut scratch, building, until, line.as_slice())?;
        if is_past {
            return Ok(deliveries);
        }
        collect_line(
            alloc,
            &mut scratch,
            building,
            number,
            line.as_slice(),
            &mut deliveries,
        )?;
    }
    Err(RunFault::CannotRead { path })
}

/// The delivery of one line, without its end, whose number is counted from 1; none in an empty one, and none of an import
/// whose holiday list is at fault. A line that is no delivery, and lack of memory are the faults.
pub fn delivery_in<'a>(
    alloc: Global,
    scratch: &mut Scratch,
    building: &Building,
    number: u64,
    line: &[u8],
) -> Result<Option<Delivery>, RunFault<'a>>
    ensures { IfOk result (λ delivery. tells building.now line.now delivery) }
{
    if is_empty(line) {
        return Ok(None);
    }
    match parse_line(alloc, scratch, building, line) {
        Ok(ParsedLine::Delivery(delivery)) => Ok(Some(delivery)),
        Ok(ParsedLine::RefusedImport(_)) => Ok(None),
        Err(LineFault::NotDelivery) => Err(RunFault::NotDelivery { line: number }),
        Err(LineFault::NotDone(fault)) => Err(RunFault::from(fault)),
    }
}

/// Adds the delivery of one line, if it tells one.
fn collect_line<'a>(
    alloc: Global,
    scratch: &mut Scratch,
    building: &Building,
    number: u64,
    line: &[u8],
    deliveries: &mut Vec<Delivery>,
) -> Result<(), RunFault<'a>>
    ensures { OnOk result (Collects building.now (line.now ∷ []) deliveries.old.items deliveries.new.items) }
{
    match delivery_in(alloc, scratch, building, number, line)? {
        Some(delivery) => {
            push_delivery(deliveries, delivery)?;
            Ok(())
        }
        None => Ok(()),
    }
}

fn push_delivery(deliveries: &mut Vec<Delivery>, delivery: Delivery) -> Result<(), AllocError>
    ensures { OnOk result (deliveries.new.items ≡ deliveries.old.items ++ delivery ∷ []) }
{
    deliveries.push(delivery)?;
    Ok(())
}
