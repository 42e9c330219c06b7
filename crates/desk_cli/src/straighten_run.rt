//! The straight list of a list of deliveries, printed.

ghost use Rattle.std.specs.Prelude.{◌≡◌, List, ℕ, OnOk, Some};
ghost use Rattle.std.specs.List.{flat_map};
ghost use Rattle.std.specs.Io.Buffered.{reader_remaining};
ghost use Rattle.std.specs.Io.KnownBytes.{Appends, Keeps};
ghost use Rattle.cli_common.specs.Input.{bytes_of};
ghost use Rattle.points.specs.Beginnings.{AppendsStart};
ghost use Rattle.delivery_json.specs.DeliveryText.{delivery_line};
ghost use Rattle.desk_cli.specs.Replay.{Opens};
ghost use Rattle.desk_cli.specs.Straighten.{Straightens, StraightensNoMore};

use crate::list_reading::list_deliveries;
use building::Building;
use cli_common::{Input, ListInput, RunFault, Status, flush, print_text, read_building};
use deliveries::Delivery;
use delivery_json::line_of_delivery;
use std::alloc::Global;
use std::io::{self, BufReader, Read, Write};

/// Prints the straight list of a list of deliveries over the building of a file, a line for each delivery. Empty lines
/// of the list are passed over, also with a CR, and so is an import whose holiday list is at fault.
///
/// The building is read, and refused, before the list is opened, and the whole list is read before anything is printed.
/// A fault is one line on `fault`, in one write, and ends the run: a file that can't be read or is no building, a line
/// that is no delivery, lack of memory, or an output that fails. By then nothing is printed, or, where the straight
/// list was known before lack of memory or the output ended the run, a beginning of it. `out` is flushed at the end of
/// the run, whatever it was; if that loses output, this is the fault.
pub fn straighten<B: Read + Drop, D: Read + Drop, O, W: Write, F: Write>(
    alloc: Global,
    file: Input<'_, B>,
    list: ListInput<'_, O>,
    out: &mut W,
    fault: &mut F,
) -> Status
where
    O: FnOnce() -> io::Result<BufReader<D>>,
    requires { O.IsAlwaysCallable list.open }
    ensures done { result ≡ Status.Done → (file_bytes list_bytes : List ℕ)
        → bytes_of B.remaining file.entry.reader ≡ Some file_bytes
        → Opens (O.post list.entry.open) (bytes_of (reader_remaining D.remaining)) list_bytes
        → Straightens file_bytes list_bytes (W.contents out.old) (W.contents out.new) }
    ensures quiet { result ≡ Status.Done → Keeps (F.contents fault.old) (F.contents fault.new) }
    ensures no_more { (file_bytes list_bytes : List ℕ)
        → bytes_of B.remaining file.entry.reader ≡ Some file_bytes
        → Opens (O.post list.entry.open) (bytes_of (reader_remaining D.remaining)) list_bytes
        → StraightensNoMore file_bytes list_bytes (W.contents out.old) (W.contents out.new) }
{
    match straighten_over(alloc, file, list, out) {
        Ok(()) => Status::Done,
        Err(end) => {
            let end = end.after(out.flush());
            end.print(alloc, fault);
            end.status()
        }
    }
}

fn straighten_over<'a, B: Read + Drop, D: Read + Drop, O, W: Write>(
    alloc: Global,
    file: Input<'a, B>,
    list: ListInput<'a, O>,
    out: &mut W,
) -> Result<(), RunFault<'a>>
where
    O: FnOnce() -> io::Result<BufReader<D>>,
    requires { O.IsAlwaysCallable list.open }
    ensures done { OnOk result ((file_bytes list_bytes : List ℕ)
        → bytes_of B.remaining file.entry.reader ≡ Some file_bytes
        → Opens (O.post list.entry.open) (bytes_of (reader_remaining D.remaining)) list_bytes
        → Straightens file_bytes list_bytes (W.contents out.old) (W.contents out.new)) }
    ensures no_more { (file_bytes list_bytes : List ℕ)
        → bytes_of B.remaining file.entry.reader ≡ Some file_bytes
        → Opens (O.post list.entry.open) (bytes_of (reader_remaining D.remaining)) list_bytes
        → StraightensNoMore file_bytes list_bytes (W.contents out.old) (W.contents out.new) }
{
    let building = read_building(alloc, file)?;
    let deliveries = list_deliveries(alloc, &building, list, None)?;
    let straight = desk_straighten::straighten(alloc, &building, deliveries.as_slice())?;
    print_deliveries(alloc, &building, straight.as_slice(), out)?;
    flush(out)
}

/// Prints each delivery as a line.
fn print_deliveries<'a, W: Write>(
    alloc: Global,
    building: &Building,
    deliveries: &[Delivery],
    out: &mut W,
) -> Result<(), RunFault<'a>>
    ensures whole { OnOk result (Appends (W.contents out.old) (W.contents out.new)
        (flat_map (delivery_line building.now) deliveries.now)) }
    ensures no_more { AppendsStart (W.contents out.old) (W.contents out.new)
        (flat_map (delivery_line building.now) deliveries.now) }
{
    for delivery in deliveries {
        let line = line_of_delivery(alloc, building, delivery)?;
        print_text(out, line.as_bytes())?;
    }
    Ok(())
}
