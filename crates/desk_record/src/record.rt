//! A record in a file.
ghost use Rattle.std.specs.Prelude.{◌≡◌, ℕ, ◌==◌, List, [], ◌∷◌, ◌++◌, false, length, IfOk};
ghost use Rattle.std.specs.Bool.{IsTrue};
ghost use Rattle.sqlite_disk.specs.Disk.{Only};
ghost use Rattle.std.specs.List.{list_any};
ghost use Rattle.desk_record.specs.DiskLines.{standing_of};
ghost use Rattle.desk_record.specs.Recorded.{IsLineOf};

use crate::disk_lines::DiskLines;
use crate::line_file::LineFile;
use crate::recorder::{RecordFault, Recorder};
use crate::same_delivery::is_same_delivery;
use building::Building;
use deliveries::Delivery;
use delivery_json::{LineFault, ParsedLine, line_of_delivery, parse_line};
use json::Scratch;
use sqlite_disk::Disk;
use std::alloc::Global;

/// A record in a file: a list of deliveries, one a line. It is said what a stop leaves of a device that keeps a
/// beginning of what was written since its last sync; of another one nothing is said.
#[derive(Drop)]
pub struct Record<D: Disk> {
    lines: DiskLines<D>,
    // Lent to each line that is read back.
    scratch: Scratch,
}

impl<D: Disk> Record<D> {
    /// The record in a file of so many bytes, which are on the disk.
    pub(crate) fn new(alloc: Global, scratch: Scratch, disk: D, len: usize) -> Record<D>
        requires usable { IsTrue (D.Disk.is_usable disk) }
        requires len { len ≡ length (D.Disk.seen disk) }
        requires on_disk { IsTrue (D.Disk.is_clean disk) → Only (D.Disk.seen disk) (D.Disk.may_leave disk) }
        ensures disk { result.lines.disk ≡ disk }
        ensures opened { result.lines.is_shut ≡ false }
    {
        Record {
            lines: DiskLines::new(alloc, disk, len),
            scratch,
        }
    }

    /// The disk, as it stands: while the record is open, a stop leaves just its bytes.
    pub fn into_disk(self) -> D
        ensures disk { result ≡ self.lines.disk }
        ensures on_disk { self.lines.is_shut ≡ false → IsTrue (D.Disk.is_clean result)
            → Only (D.Disk.seen result) (D.Disk.may_leave result) }
    {
        self.lines.into_disk()
    }
}

fn has_end(line: &[u8]) -> bool
    ensures { result ≡ list_any (λ byte. byte == 10) line.now }
{
    line.iter().any(|byte| *byte == b'\n')
}

/// Whether a line, without its end, says the delivery and nothing else.
fn tells(
    alloc: Global,
    scratch: &mut Scratch,
    building: &Building,
    delivery: &Delivery,
    line: &[u8],
) -> Result<(), RecordFault>
    ensures { IfOk result (λ _. IsLineOf building.now delivery.now line.now) }
{
    if has_end(line) {
        return Err(RecordFault::Failed);
    }
    match parse_line(alloc, scratch, building, line) {
        Ok(ParsedLine::Delivery(read)) => match is_same_delivery(alloc, &read, delivery) {
            Ok(true) => Ok(()),
            Ok(false) => Err(RecordFault::Failed),
            Err(_) => Err(RecordFault::NoMemory),
        },
        Ok(ParsedLine::RefusedImport(_)) | Err(LineFault::NotDelivery) => Err(RecordFault::Failed),
        Err(LineFault::NotDone(_)) => Err(RecordFault::NoMemory),
    }
}

/// The line of a delivery with its end (LF), which is read back before it is given. One that read as something else
/// would be `Failed`: none is known.
fn line_of(
    alloc: Global,
    scratch: &mut Scratch,
    building: &Building,
    delivery: &Delivery,
) -> Result<Vec<u8>, RecordFault>
    ensures { IfOk result (λ text. (line : List ℕ) × IsLineOf building.now delivery.now line × (text.items ≡ line ++ 10 ∷ [])) }
{
    let text = line_of_delivery(alloc, building, delivery)
        .or(Err(RecordFault::NoMemory))?
        .into_bytes();
    match text.split_last() {
        Some((b'\n', line)) => tells(alloc, scratch, building, delivery, line)?,
        _ => return Err(RecordFault::Failed),
    }
    Ok(text)
}

impl<D: Disk> Recorder for Record<D> {
    ghost standing = { λ r. standing_of (D.Disk.seen r.lines.disk) (D.Disk.may_leave r.lines.disk) (D.Disk.is_clean r.lines.disk)
        r.lines.start r.lines.line.items r.lines.is_shut };

    fn write_down(
        &mut self,
        alloc: Global,
        building: &Building,
        delivery: &Delivery,
    ) -> Result<(), RecordFault> {
        if self.lines.is_shut() {
            return Err(RecordFault::Failed);
        }
        match line_of(alloc, &mut self.scratch, building, delivery) {
            Ok(line) => self.lines.put_last(line).or(Err(RecordFault::Failed)),
            Err(RecordFault::NoMemory) => Err(RecordFault::NoMemory),
            Err(RecordFault::Failed) => {
                self.lines.shut();
                Err(RecordFault::Failed)
            }
        }
    }

    fn take_back(&mut self) -> Result<(), RecordFault> {
        self.lines.take_last().or(Err(RecordFault::Failed))
    }

    fn shut(&mut self) {
        self.lines.shut();
    }
}
