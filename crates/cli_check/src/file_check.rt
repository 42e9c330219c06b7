//! The check of a building file.

ghost use Rattle.std.specs.Prelude.{◌≡◌, List, ℕ, IfOk, OnOk, Ok, Some, string_bytes};
ghost use Rattle.std.specs.Io.KnownBytes.{Appends, Keeps};
ghost use Rattle.building.specs.Building.{contents_of};
ghost use Rattle.building.specs.BuildingFile.{building_of};
ghost use Rattle.points.specs.FaultSteps.{result_map};
ghost use Rattle.cli_common.specs.Input.{bytes_of};
ghost use Rattle.cli_check.specs.FileCheck.{Checks, counts_line, ok_line};

use crate::check_fault::CheckFault;
use crate::detail::Detail;
use crate::explained::building_in;
use building::Building;
use cli_common::{Input, RunFault, Status, flush, print_text};
use std::alloc::{AllocError, Global};
use std::io::{Read, Write};

/// Reads the building of a file, and prints how many points, panels, calendars and schedules it has: `desk check FILE`.
/// A fault is printed to `fault` as one line; in detail a fault of the building file has a second line, which explains
/// it: `desk check --explain FILE`.
pub fn check<B: Read + Drop, W: Write, F: Write>(
    alloc: Global,
    file: Input<'_, B>,
    detail: Detail,
    out: &mut W,
    fault: &mut F,
) -> Status
    ensures done { result ≡ Status.Done → (bytes : List ℕ)
        → bytes_of B.remaining file.entry.reader ≡ Some bytes
        → Checks bytes (W.contents out.old) (W.contents out.new) }
    ensures quiet { result ≡ Status.Done → Keeps (F.contents fault.old) (F.contents fault.new) }
{
    match check_over(alloc, file, detail, out) {
        Ok(()) => Status::Done,
        Err(end) => {
            end.print(alloc, fault);
            end.status()
        }
    }
}

fn check_over<'a, B: Read + Drop, W: Write>(
    alloc: Global,
    file: Input<'a, B>,
    detail: Detail,
    out: &mut W,
) -> Result<(), CheckFault<'a>>
    ensures { OnOk result ((bytes : List ℕ) → bytes_of B.remaining file.entry.reader ≡ Some bytes
        → Checks bytes (W.contents out.old) (W.contents out.new)) }
{
    let building = building_in(alloc, file, detail)?;
    print_counts(alloc, &building, out)?;
    Ok(())
}

/// Prints how many points, panels, calendars and schedules the building has.
fn print_counts<'a, W: Write>(
    alloc: Global,
    building: &Building,
    out: &mut W,
) -> Result<(), RunFault<'a>>
    ensures { OnOk result (Appends (W.contents out.old) (W.contents out.new) (ok_line (contents_of building.now))) }
{
    let line = ok_line(alloc, building)?;
    print_line(out, line.as_bytes())
}

/// How many points, panels, calendars and schedules the building has, as a line.
pub(crate) fn ok_line(alloc: Global, building: &Building) -> Result<String, AllocError>
    ensures { IfOk result (λ line. string_bytes line ≡ ok_line (contents_of building.now)) }
{
    counts_line(
        alloc,
        building.points().len(),
        building.panels().len(),
        building.calendars().len(),
        building.schedules().len(),
    )
}

fn counts_line(
    alloc: Global,
    points: usize,
    panels: usize,
    calendars: usize,
    schedules: usize,
) -> Result<String, AllocError>
    ensures { IfOk result (λ line. string_bytes line ≡ counts_line points panels calendars schedules) }
{
    format!(in alloc;
        "ok: {points} points, {panels} panels, {calendars} calendars, {schedules} schedules\n"
    )
}

/// Prints a line whole, and flushes it.
fn print_line<'a, W: Write>(out: &mut W, line: &[u8]) -> Result<(), RunFault<'a>>
    ensures { OnOk result (Appends (W.contents out.old) (W.contents out.new) line.now) }
{
    print_text(out, line)?;
    flush(out)
}
