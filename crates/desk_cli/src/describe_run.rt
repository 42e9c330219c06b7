//! The description of a building file.

ghost use Rattle.std.specs.Prelude.{◌≡◌, List, ℕ, IfOk, OnOk, Some, option_map, string_bytes};
ghost use Rattle.std.specs.Io.KnownBytes.{Appends, Keeps};
ghost use Rattle.building.specs.Building.{contents_of};
ghost use Rattle.cli_common.specs.Input.{bytes_of};
ghost use Rattle.desk_cli.specs.Describe.{Describes, Tells};

use crate::description::description_line;
use crate::zone::zone_text;
use building::Building;
use cli_common::{Input, RunFault, Status, print_whole, read_start};
use std::alloc::Global;
use std::io::{Read, Write};

/// Reads the building of a file, and prints it as one JSON object, a line: `desk describe`. The text of the zone is the
/// file's own. A fault is printed to `fault` as one line.
pub fn describe<B: Read + Drop, W: Write, F: Write>(
    alloc: Global,
    file: Input<'_, B>,
    out: &mut W,
    fault: &mut F,
) -> Status
    ensures done { result ≡ Status.Done → (bytes : List ℕ)
        → bytes_of B.remaining file.entry.reader ≡ Some bytes
        → Describes bytes (W.contents out.old) (W.contents out.new) }
    ensures quiet { result ≡ Status.Done → Keeps (F.contents fault.old) (F.contents fault.new) }
{
    match describe_over(alloc, file, out) {
        Ok(()) => Status::Done,
        Err(end) => {
            end.print(alloc, fault);
            end.status()
        }
    }
}

fn describe_over<'a, B: Read + Drop, W: Write>(
    alloc: Global,
    file: Input<'a, B>,
    out: &mut W,
) -> Result<(), RunFault<'a>>
    ensures { OnOk result ((bytes : List ℕ) → bytes_of B.remaining file.entry.reader ≡ Some bytes
        → Describes bytes (W.contents out.old) (W.contents out.new)) }
{
    let bytes = read_start(alloc, file)?;
    let line = described(alloc, bytes.as_slice())?;
    print_whole(out, line.as_str())
}

/// The line of the building that the bytes name.
fn described<'a>(alloc: Global, bytes: &[u8]) -> Result<String, RunFault<'a>>
    ensures { IfOk result (λ line. Tells bytes.now (string_bytes line)) }
{
    let building = Building::read(alloc, bytes)?;
    let zone = zone_text(alloc, bytes)?;
    Ok(description_line(alloc, zone.as_deref(), &building)?)
}
