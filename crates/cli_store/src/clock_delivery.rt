//! A delivery by the clock: a tick or an import.
ghost use Rattle.std.specs.Prelude.{◌≡◌, List, ℕ, Some, IfOk};
ghost use Rattle.cli_common.specs.Input.{bytes_of};
ghost use Rattle.cli_store.specs.Answered.{Asks, IsImport};

use building::Building;
use building_holidays::{ImportRefusal, read_holidays};
use cli_common::{Input, RunFault};
use deliveries::Delivery;
use points::Listing;
use std::alloc::Global;
use std::io::Read;

/// What a run delivers: a tick or an import.
#[derive(Drop)]
pub enum ClockDelivery<'a, L> {
    /// A tick at a moment, in hundredths of a second since 1970: `desk tick`.
    Tick { at: i64 },
    /// The import of a holiday list: `desk import`.
    Import { list: Input<'a, L> },
}

/// The delivery that is asked, once the building is read.
pub(crate) fn read_asked<'a, L: Read + Drop>(
    alloc: Global,
    building: &Building,
    asked: ClockDelivery<'a, L>,
) -> Result<Delivery, RunFault<'a>>
    ensures { IfOk result (Asks L.remaining asked.entry building.now) }
{
    match asked {
        ClockDelivery::Tick { at } => Ok(Delivery::Tick { at }),
        ClockDelivery::Import { list } => read_import(alloc, building, list),
    }
}

/// The import of the holiday list of a file.
#[tactic(auto, unfolding(delivery_json::specs::ClockLine::import_of))]
pub(crate) fn read_import<'a, L: Read + Drop>(
    alloc: Global,
    building: &Building,
    list: Input<'a, L>,
) -> Result<Delivery, RunFault<'a>>
    ensures { IfOk result (λ delivery. (bytes : List ℕ)
        → bytes_of L.remaining list.entry.reader ≡ Some bytes → IsImport bytes building.now delivery) }
{
    let bytes = read_all(alloc, list)?;
    match read_holidays(alloc, building, bytes.as_slice()) {
        Ok(rows) => Ok(Delivery::Import {
            rows: Listing::from_vec(rows),
        }),
        Err(ImportRefusal::Fault(fault)) => Err(RunFault::Holidays(fault)),
        Err(ImportRefusal::NoMemory) => Err(RunFault::NoMemory),
    }
}

/// The bytes of a file.
fn read_all<'a, L: Read + Drop>(alloc: Global, list: Input<'a, L>) -> Result<Vec<u8>, RunFault<'a>>
    ensures { IfOk result (λ it. (bytes : List ℕ)
        → bytes_of L.remaining list.entry.reader ≡ Some bytes → it.items ≡ bytes) }
{
    let path = list.path;
    let mut bytes = Vec::new(alloc);
    match list.reader {
        Ok(mut reader) => match reader.read_to_end(&mut bytes) {
            Ok(_) => Ok(bytes),
            Err(error) => Err(RunFault::of_read(&error, path)),
        },
        Err(error) => Err(RunFault::of_read(&error, path)),
    }
}
