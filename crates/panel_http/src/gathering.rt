//! The bytes of an input, gathered as they come.

ghost use Rattle.std.specs.Prelude.{◌≡◌, ◌<◌, ◌+◌, OnErr, OnOk, IfOk, IfSome, [], false, true, length};
ghost use Rattle.std.specs.Io.KnownBytes.{IsAtEnd, Keeps};
ghost use Rattle.building.specs.Building.{Building as a_building};
ghost use Rattle.panel_http.specs.Gathering.{Counts, CountsTaking, Takes, TellsNone};
ghost use Rattle.panel_http.specs.declared.gathering.Gathered.{Gathered};
ghost use Rattle.panel_http.specs.Requests.{IsRequest};
ghost use Rattle.panel_http.specs.Whole.{IsWhole};
ghost use Rattle.panel_http.specs.declared.request.Request.{Request as a_request};

use crate::come::{Come, request_come};
use crate::counted_end::Counted;
use crate::request::Request;
use crate::routes::Routes;
use crate::untaken::Untaken;
use building::Building;
use std::alloc::Global;
use std::io::Read;

/// How many bytes are read at once at most.
const READ: usize = 8_192;

/// How many bytes are read at first at most: nearly every request is shorter, and each read clears its room.
const FIRST_READ: usize = 1_024;

/// How many reads an input has at a turn, so that none holds the others up.
const READS: u32 = 8;

/// What has come of an input.
#[derive(Drop)]
pub enum Gathered {
    /// A whole request, which asks this: no byte that follows can change it.
    Asks(Request),
    /// A whole request, of which memory was refused to tell what it asks: no byte that follows can change that.
    Whole,
    /// All that there is.
    Ended,
    /// A part, and no more is there yet.
    Waits,
    /// A part, and more may be there.
    HasMore,
    /// A part, and a read failed.
    Lost,
    /// A part, and memory for more of it was refused.
    NoMemory,
}

/// Reads an input to the end of its request, or as far as it goes; where a read finds nothing yet, no further. No byte
/// past the request's end is waited for.
pub(crate) fn gather_whole<R: Read>(
    alloc: Global,
    routes: &Routes,
    building: &Building,
    reader: &mut Counted<R>,
    come: &mut Vec<u8>,
) -> Gathered
    ensures taken { Takes (R.remaining reader.old.inner) (R.remaining reader.new.inner) come.old.items come.new.items }
    ensures whole { (building : a_building) → result ≡ Gathered.Whole → IsWhole building come.new.items }
    ensures asks { (request : a_request) → result ≡ Gathered.Asks request
        → IsWhole building.now come.new.items × IsRequest building.now come.new.items request }
    ensures ended { result ≡ Gathered.Ended → IsAtEnd (R.remaining reader.new.inner) }
    ensures failures { Counts reader.old.failures reader.new.failures result }
{
    let mut lacks = 1;
    for _ in 0..u64::MAX {
        match gather(alloc, routes, building, reader, come, &mut lacks) {
            Gathered::HasMore => {}
            gathered => return gathered,
        }
    }
    // No memory holds so many bytes.
    Gathered::NoMemory
}

/// Reads an input as long as it gives something, until what has come is a whole request, or for a few reads. `lacks` is
/// how many bytes are waited for before it is looked at again: 1 before the first call.
pub fn gather<R: Read>(
    alloc: Global,
    routes: &Routes,
    building: &Building,
    reader: &mut Counted<R>,
    come: &mut Vec<u8>,
    lacks: &mut usize,
) -> Gathered
    ensures taken { Takes (R.remaining reader.old.inner) (R.remaining reader.new.inner) come.old.items come.new.items }
    ensures whole { (building : a_building) → result ≡ Gathered.Whole → IsWhole building come.new.items }
    ensures asks { (request : a_request) → result ≡ Gathered.Asks request
        → IsWhole building.now come.new.items × IsRequest building.now come.new.items request }
    ensures ended { result ≡ Gathered.Ended → IsAtEnd (R.remaining reader.new.inner) }
    ensures failures { Counts reader.old.failures reader.new.failures result }
{
    for _ in 0..READS {
        match take_some(reader, come) {
            Ok(0) => return Gathered::Ended,
            Ok(count) => {
                *lacks = lacks.saturating_sub(count);
                if *lacks == 0 {
                    match request_come(alloc, routes, building, come) {
                        Come::Asks(request) => return Gathered::Asks(request),
                        Come::Lacks(0) => return Gathered::Whole,
                        Come::Lacks(count) => *lacks = count,
                    }
                }
            }
            Err(Untaken::Waits) => return Gathered::Waits,
            Err(Untaken::Lost) => return Gathered::Lost,
            Err(Untaken::NoMemory) => return Gathered::NoMemory,
        }
    }
    Gathered::HasMore
}

/// Whether an input gives one more byte, which is lost.
pub(crate) fn gives_more<R: Read>(reader: &mut Counted<R>) -> bool
    ensures some { result ≡ true → IfSome (R.remaining reader.old.inner) (λ bytes. 0 < length bytes) }
    ensures none { result ≡ false
        → IfSome (R.remaining reader.old.inner) (λ bytes. TellsNone reader.old.failures reader.new.failures bytes) }
{
    matches!(reader.read(&mut [0; 1]), Ok(1..))
}

/// Reads once, and puts what was read behind what has come. Where it fails, for lack of memory too, nothing was read.
fn take_some<R: Read>(reader: &mut Counted<R>, come: &mut Vec<u8>) -> Result<usize, Untaken>
    ensures taken { OnOk result (Takes (R.remaining reader.old.inner) (R.remaining reader.new.inner) come.old.items
        come.new.items) }
    ensures count { IfOk result (λ count. length come.new.items ≡ length come.old.items + count) }
    ensures end { IfOk result (λ count. count ≡ 0 → IsAtEnd (R.remaining reader.new.inner)) }
    ensures none { OnErr result (Keeps (R.remaining reader.old.inner) (R.remaining reader.new.inner)) }
    ensures same { OnErr result (come.new.items ≡ come.old.items) }
    ensures failures { CountsTaking reader.old.failures reader.new.failures result }
{
    if come.is_empty() {
        take_into(reader, &mut [0; FIRST_READ], come)
    } else {
        take_into(reader, &mut [0; READ], come)
    }
}

/// Reads once into `scratch`, and puts what was read behind what has come. Where it fails, for lack of memory too,
/// nothing was read.
fn take_into<R: Read>(
    reader: &mut Counted<R>,
    scratch: &mut [u8],
    come: &mut Vec<u8>,
) -> Result<usize, Untaken>
    requires room { 0 < length scratch.old }
    ensures taken { OnOk result (Takes (R.remaining reader.old.inner) (R.remaining reader.new.inner) come.old.items
        come.new.items) }
    ensures count { IfOk result (λ count. length come.new.items ≡ length come.old.items + count) }
    ensures end { IfOk result (λ count. count ≡ 0 → IsAtEnd (R.remaining reader.new.inner)) }
    ensures none { OnErr result (Keeps (R.remaining reader.old.inner) (R.remaining reader.new.inner)) }
    ensures same { OnErr result (come.new.items ≡ come.old.items) }
    ensures failures { CountsTaking reader.old.failures reader.new.failures result }
{
    come.reserve_exact(scratch.len())?;
    let count = reader.read(scratch)?;
    come.extend_from_slice(&scratch[..count])?;
    Ok(count)
}
