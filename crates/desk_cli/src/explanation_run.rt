//! The run that says what a list explains.
ghost use Rattle.std.specs.Prelude.{◌≡◌, List, ℕ, Ok, OnOk, Some};
ghost use Rattle.std.specs.Io.Buffered.{reader_remaining};
ghost use Rattle.std.specs.Io.KnownBytes.{Keeps};
ghost use Rattle.building.specs.Building.{contents_of};
ghost use Rattle.building.specs.BuildingFile.{building_of};
ghost use Rattle.cli_base.specs.Base.{StandsOn};
ghost use Rattle.cli_common.specs.Input.{bytes_of};
ghost use Rattle.deliveries.specs.Delivered.{Holds};
ghost use Rattle.deliveries.specs.declared.delivery.Delivery.{Delivery as a_delivery};
ghost use Rattle.desk_cli.specs.Explained.{Explains, ExplainsNoMore};
ghost use Rattle.desk_cli.specs.Replay.{Opens};
ghost use Rattle.desk_cli.specs.Until.{said_in};
ghost use Rattle.store_memory.specs.Memory.{standing_of};

use crate::list_reading::list_deliveries;
use crate::question::{Question, asked_of, explanation};
use crate::until::until_of;
use building::Building;
use cli_base::desk_on;
use cli_common::{Input, ListInput, RunFault, Status, flush, print_text, read_building};
use std::alloc::Global;
use std::io::{self, BufReader, Read, Write};
use store_memory::MemStore;

/// Prints what is asked of the deliveries of a list: what a point of the building of a file presents after them, what put
/// each value in its places, and when the schedules that target it change next on the local day of the last tick, `desk
/// why`; or when panels' commands gave points their values, `desk overrides`. The list begins on the tables of its base, or
/// on empty ones where it has none; of what they have in a place no more is told than that it was put there before the
/// record. Empty lines of the list are passed over, also with a CR, and so is an import
/// whose holiday list is at fault. Where `until` is a moment (`moments`), the list ends before its first line that has a
/// tick later than it, that line and those after it are not looked at, and a last line tells which moment of the building's
/// clock that was.
///
/// The building is read, and refused, then the base, over which a desk is to open, before the question's own words, then the
/// moment, and then the list is opened; the whole list is read before anything is printed. A fault is one line on `fault`,
/// in one write, and ends the run: a file that can't be read or is no building, a base that does not suit it, a name of no
/// point of it, a line that is no delivery, lack of memory, or an output that fails. By then nothing is printed, or, where
/// the output ended the run, a beginning of the text. `out` is flushed at the end of the run, whatever it was; if that
/// loses output, this is the fault.
pub fn explain<B: Read + Drop, D: Read + Drop, O, W: Write, F: Write>(
    alloc: Global,
    file: Input<'_, B>,
    list: ListInput<'_, O>,
    base: Option<MemStore>,
    question: Question<'_>,
    until: Option<&str>,
    out: &mut W,
    fault: &mut F,
) -> Status
where
    O: FnOnce() -> io::Result<BufReader<D>>,
    requires { O.IsAlwaysCallable list.open }
    ensures done { result ≡ Status.Done → (file_bytes list_bytes : List ℕ) (earlier : List a_delivery)
        → bytes_of B.remaining file.entry.reader ≡ Some file_bytes
        → Opens (O.post list.entry.open) (bytes_of (reader_remaining D.remaining)) list_bytes
        → StandsOn base file_bytes earlier
        → Explains file_bytes earlier list_bytes question.entry (said_in until.entry) (W.contents out.old) (W.contents out.new) }
    ensures quiet { result ≡ Status.Done → Keeps (F.contents fault.old) (F.contents fault.new) }
    ensures no_more { (file_bytes list_bytes : List ℕ) (earlier : List a_delivery)
        → bytes_of B.remaining file.entry.reader ≡ Some file_bytes
        → Opens (O.post list.entry.open) (bytes_of (reader_remaining D.remaining)) list_bytes
        → StandsOn base file_bytes earlier
        → ExplainsNoMore file_bytes earlier list_bytes question.entry (said_in until.entry) (W.contents out.old) (W.contents out.new) }
{
    match explain_over(alloc, file, list, base, question, until, out) {
        Ok(()) => Status::Done,
        Err(end) => {
            let end = end.after(out.flush());
            end.print(alloc, fault);
            end.status()
        }
    }
}

fn explain_over<'a, B: Read + Drop, D: Read + Drop, O, W: Write>(
    alloc: Global,
    file: Input<'a, B>,
    list: ListInput<'a, O>,
    base: Option<MemStore>,
    question: Question<'a>,
    said: Option<&'a str>,
    out: &mut W,
) -> Result<(), RunFault<'a>>
where
    O: FnOnce() -> io::Result<BufReader<D>>,
    requires { O.IsAlwaysCallable list.open }
    ensures done { OnOk result ((file_bytes list_bytes : List ℕ) (earlier : List a_delivery)
        → bytes_of B.remaining file.entry.reader ≡ Some file_bytes
        → Opens (O.post list.entry.open) (bytes_of (reader_remaining D.remaining)) list_bytes
        → StandsOn base file_bytes earlier
        → Explains file_bytes earlier list_bytes question.entry (said_in said.entry) (W.contents out.old) (W.contents out.new)) }
    ensures no_more { (file_bytes list_bytes : List ℕ) (earlier : List a_delivery)
        → bytes_of B.remaining file.entry.reader ≡ Some file_bytes
        → Opens (O.post list.entry.open) (bytes_of (reader_remaining D.remaining)) list_bytes
        → StandsOn base file_bytes earlier
        → ExplainsNoMore file_bytes earlier list_bytes question.entry (said_in said.entry) (W.contents out.old) (W.contents out.new) }
{
    let building = read_building(alloc, file)?;
    let desk = desk_on(alloc, building, base)?;
    let (building, store) = desk.into_parts();
    let mut store = store;
    explain_asked(alloc, &building, &mut store, list, question, said, out)
}

/// Prints what is asked after the deliveries of the list, which are made to the store. It is lent, so that no exit
/// here drops it.
fn explain_asked<'a, D: Read + Drop, O, W: Write>(
    alloc: Global,
    building: &Building,
    store: &mut MemStore,
    list: ListInput<'a, O>,
    question: Question<'a>,
    said: Option<&'a str>,
    out: &mut W,
) -> Result<(), RunFault<'a>>
where
    O: FnOnce() -> io::Result<BufReader<D>>,
    requires { O.IsAlwaysCallable list.open }
    ensures done { OnOk result ((file_bytes list_bytes : List ℕ) (earlier : List a_delivery)
        → building_of file_bytes ≡ Ok (contents_of building.now)
        → Opens (O.post list.entry.open) (bytes_of (reader_remaining D.remaining)) list_bytes
        → Holds building.now earlier (standing_of store.old)
        → Explains file_bytes earlier list_bytes question.entry (said_in said.entry) (W.contents out.old) (W.contents out.new)) }
    ensures no_more { (file_bytes list_bytes : List ℕ) (earlier : List a_delivery)
        → building_of file_bytes ≡ Ok (contents_of building.now)
        → Opens (O.post list.entry.open) (bytes_of (reader_remaining D.remaining)) list_bytes
        → Holds building.now earlier (standing_of store.old)
        → ExplainsNoMore file_bytes earlier list_bytes question.entry (said_in said.entry) (W.contents out.old) (W.contents out.new) }
{
    let asked = asked_of(building, question)?;
    let until = until_of(building, said)?;
    let deliveries = list_deliveries(alloc, building, list, until)?;
    let text = explanation(alloc, building, store, deliveries.as_slice(), asked, until)?;
    print_text(out, text.as_bytes())?;
    flush(out)
}
