//! The last whole line of a file.
ghost use Rattle.std.specs.Prelude.{◌≡◌, ◌+◌, ◌<◌, ◌^◌, ℕ, List, ◌++◌, length, IfOk, IfErr};
ghost use Rattle.desk_record.specs.LastLine.{HasLastLine, TellsLast};
ghost use Rattle.desk_record.specs.Torn.{begin_alike, may_be_torn};

use crate::resume_fault::ResumeFault;
use building::Building;
use deliveries::Delivery;
use delivery_json::{LineFault, ParsedLine, last_end, parse_line};
use json::Scratch;
use std::alloc::Global;

/// Where a line begins in some bytes, and where its LF stands.
#[derive(Clone, Copy)]
pub(crate) struct LastLine {
    pub start: usize,
    pub end: usize,
}

/// The last whole line in the end of a file, which begins at `from`. A line that does not begin there is no delivery.
fn last_line(from: usize, bytes: &[u8]) -> Result<Option<LastLine>, ResumeFault>
    ensures found { IfOk result (λ last. HasLastLine from bytes.now last) }
    ensures refused { IfErr result (λ fault. fault ≡ ResumeFault.NotDelivery) }
{
    let Some(end) = last_end(bytes) else {
        return if from == 0 {
            Ok(None)
        } else {
            Err(ResumeFault::NotDelivery)
        };
    };
    match last_end(&bytes[..end]) {
        Some(before) => Ok(Some(LastLine {
            start: before + 1,
            end,
        })),
        None if from == 0 => Ok(Some(LastLine { start: 0, end })),
        None => Err(ResumeFault::NotDelivery),
    }
}

/// Whether one of the two begins the other.
fn begin_alike(head: &[u8], bytes: &[u8]) -> bool
    ensures { result ≡ begin_alike head.now bytes.now }
{
    head.starts_with(bytes) || bytes.starts_with(head)
}

/// Whether bytes may be the beginning of a line that was being written: they begin as one of the kinds of lines that
/// are written, or are themselves the beginning of such a beginning.
fn may_be_torn(bytes: &[u8]) -> bool
    ensures { result ≡ may_be_torn bytes.now }
{
    begin_alike(b"{\"number\":", bytes)
        || begin_alike(b"{\"panel\":\"", bytes)
        || begin_alike(b"{\"tick\":", bytes)
        || begin_alike(b"{\"import\":\"", bytes)
}

/// How many bytes of a file are whole lines, and the delivery that the last of them says, if there is one.
#[derive(Drop)]
pub(crate) struct Ending {
    pub whole: usize,
    pub delivery: Option<Delivery>,
}

/// What the last whole line says in the end of a file, which begins at `from`. Bytes after it that are no beginning of
/// a line that is written are no delivery: then the file is no record, or somebody else wrote there.
pub(crate) fn read_ending(
    alloc: Global,
    scratch: &mut Scratch,
    building: &Building,
    from: usize,
    bytes: &[u8],
) -> Result<Ending, ResumeFault>
    requires { from + length bytes.now < 2 ^ 64 }
    ensures { (file front : List ℕ) → file ≡ front ++ bytes.now → length front ≡ from
        → IfOk result (λ ending. TellsLast building.now file ending.whole ending.delivery) }
{
    let Some(last) = last_line(from, bytes)? else {
        return if may_be_torn(bytes) {
            Ok(Ending {
                whole: 0,
                delivery: None,
            })
        } else {
            Err(ResumeFault::NotDelivery)
        };
    };
    if !may_be_torn(&bytes[last.end + 1..]) {
        return Err(ResumeFault::NotDelivery);
    }
    let line = &bytes[last.start..last.end];
    match parse_line(alloc, scratch, building, line) {
        Ok(ParsedLine::Delivery(delivery)) => Ok(Ending {
            whole: from + last.end + 1,
            delivery: Some(delivery),
        }),
        Ok(ParsedLine::RefusedImport(_)) | Err(LineFault::NotDelivery) => Err(
            ResumeFault::NotDelivery,
        ),
        Err(LineFault::NotDone(_)) => Err(ResumeFault::NoMemory),
    }
}
