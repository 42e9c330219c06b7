//! The run of a list of deliveries over a building, in memory.

ghost use Rattle.std.specs.Prelude.{◌≡◌, List, ℕ, [], ◌∷◌, IfOk, Ok, OnOk, Some, string_bytes};
ghost use Rattle.std.specs.Io.Buffered.{reader_remaining};
ghost use Rattle.std.specs.Io.KnownBytes.{Appends, Keeps};
ghost use Rattle.points.specs.Rights.{point_named};
ghost use Rattle.building.specs.Building.{contents_of};
ghost use Rattle.building.specs.BuildingFile.{building_of};
ghost use Rattle.desk.specs.PointState.{state_of};
ghost use Rattle.deliveries.specs.Delivered.{Holds};
ghost use Rattle.deliveries.specs.declared.delivery.Delivery.{Delivery as a_delivery};
ghost use Rattle.cli_base.specs.Base.{StandsOn};
ghost use Rattle.cli_common.specs.Input.{bytes_of};
ghost use Rattle.points.specs.Beginnings.{AppendsStart};
ghost use Rattle.desk_cli.specs.Replay.{Opens, Prints, PrintsNoMore, PrintsStart, Replays};
ghost use Rattle.desk_cli.specs.Until.{said_in};
ghost use Rattle.desk_cli.specs.Replay.{lines_of, lines_until, point_lines, state_line};

use crate::line_answer::answer_line;
use crate::list_end::is_past;
use crate::list_lines::{is_empty, read_line};
use crate::until::{until_line, until_of};
use cli_base::desk_on;
use cli_common::{Input, ListInput, RunFault, Status, flush, print_text, read_building};
use delivery_json::LineFault;
use desk::Desk;
use json::Scratch;
use points::{Name, point_line};
use std::alloc::Global;
use std::io::{self, BufReader, Read, Write};
use store::Store;
use store_memory::MemStore;

/// Runs the deliveries of a list over the building of a file, in memory: prints each reply as a line,
/// and then the POINT line of each point in file order. Empty lines are passed over, also with a CR. The list begins on
/// the tables of its base, or on empty ones where it has none.
///
/// Where `until` is a moment (`moments`), the list ends before its first line that has a tick later than it, whatever is
/// wrong with that tick: that line and those after it are not answered, the points are as the lines before it leave them,
/// and a last line tells which moment of the building's clock that was.
///
/// The building is read, and refused, then the base, over which a desk is to open, then the moment, before the list is
/// opened. A fault is printed to `fault` as one line, in one write, and ends the run: the replies before it stand, and no
/// POINT line follows a line that is no delivery. A line of an import whose holiday list is at fault is answered with its
/// refusal, and nothing is delivered. Whatever the end, nothing else is printed: a beginning of what the first lines are
/// answered, or of all answers, the points and the moment. `out` is flushed where no further line is at hand, and at the
/// end of the run, whatever it was; if that loses output, this is the fault that is reported.
pub fn replay<B: Read + Drop, D: Read + Drop, O, W: Write, F: Write>(
    alloc: Global,
    file: Input<'_, B>,
    deliveries: ListInput<'_, O>,
    base: Option<MemStore>,
    until: Option<&str>,
    out: &mut W,
    fault: &mut F,
) -> Status
where
    O: FnOnce() -> io::Result<BufReader<D>>,
    requires { O.IsAlwaysCallable deliveries.open }
    ensures done { result ≡ Status.Done → (file_bytes list_bytes : List ℕ) (earlier : List a_delivery)
        → bytes_of B.remaining file.entry.reader ≡ Some file_bytes
        → Opens (O.post deliveries.entry.open) (bytes_of (reader_remaining D.remaining)) list_bytes
        → StandsOn base file_bytes earlier
        → Replays (said_in until.entry) file_bytes earlier list_bytes (W.contents out.old) (W.contents out.new) }
    ensures quiet { result ≡ Status.Done → Keeps (F.contents fault.old) (F.contents fault.new) }
    ensures no_more { (file_bytes list_bytes : List ℕ) (earlier : List a_delivery)
        → bytes_of B.remaining file.entry.reader ≡ Some file_bytes
        → Opens (O.post deliveries.entry.open) (bytes_of (reader_remaining D.remaining)) list_bytes
        → StandsOn base file_bytes earlier
        → PrintsNoMore (said_in until.entry) file_bytes earlier list_bytes (W.contents out.old) (W.contents out.new) }
{
    match replay_over(alloc, file, deliveries, base, until, out) {
        Ok(()) => Status::Done,
        Err(end) => {
            let end = end.after(out.flush());
            end.print(alloc, fault);
            end.status()
        }
    }
}

fn replay_over<'a, B: Read + Drop, D: Read + Drop, O, W: Write>(
    alloc: Global,
    file: Input<'a, B>,
    deliveries: ListInput<'a, O>,
    base: Option<MemStore>,
    said: Option<&'a str>,
    out: &mut W,
) -> Result<(), RunFault<'a>>
where
    O: FnOnce() -> io::Result<BufReader<D>>,
    requires { O.IsAlwaysCallable deliveries.open }
    ensures done { OnOk result ((file_bytes list_bytes : List ℕ) (earlier : List a_delivery)
        → bytes_of B.remaining file.entry.reader ≡ Some file_bytes
        → Opens (O.post deliveries.entry.open) (bytes_of (reader_remaining D.remaining)) list_bytes
        → StandsOn base file_bytes earlier
        → Replays (said_in said.entry) file_bytes earlier list_bytes (W.contents out.old) (W.contents out.new)) }
    ensures no_more { (file_bytes list_bytes : List ℕ) (earlier : List a_delivery)
        → bytes_of B.remaining file.entry.reader ≡ Some file_bytes
        → Opens (O.post deliveries.entry.open) (bytes_of (reader_remaining D.remaining)) list_bytes
        → StandsOn base file_bytes earlier
        → PrintsNoMore (said_in said.entry) file_bytes earlier list_bytes (W.contents out.old) (W.contents out.new) }
{
    let building = read_building(alloc, file)?;
    let mut desk = desk_on(alloc, building, base)?;
    print_list(alloc, &mut desk, deliveries, said, out)
}

/// Answers each line of the list up to the moment that is said, and then prints the points and which moment that was. The
/// desk is lent, so that no exit here drops one: at the type of one store that is dear to prove.
fn print_list<'a, S: Store + Drop, D: Read + Drop, O, W: Write>(
    alloc: Global,
    desk: &mut Desk<S>,
    deliveries: ListInput<'a, O>,
    said: Option<&'a str>,
    out: &mut W,
) -> Result<(), RunFault<'a>>
where
    O: FnOnce() -> io::Result<BufReader<D>>,
    requires { O.IsAlwaysCallable deliveries.open }
    ensures done { OnOk result ((file_bytes list_bytes : List ℕ) (earlier : List a_delivery) → (S.standing desk.new.store).is_honest
        → building_of file_bytes ≡ Ok (contents_of desk.old.building)
        → Opens (O.post deliveries.entry.open) (bytes_of (reader_remaining D.remaining)) list_bytes
        → Holds desk.old.building earlier (S.standing desk.old.store)
        → Replays (said_in said.entry) file_bytes earlier list_bytes (W.contents out.old) (W.contents out.new)) }
    ensures no_more { (file_bytes list_bytes : List ℕ) (earlier : List a_delivery) → (S.standing desk.new.store).is_honest
        → building_of file_bytes ≡ Ok (contents_of desk.old.building)
        → Opens (O.post deliveries.entry.open) (bytes_of (reader_remaining D.remaining)) list_bytes
        → Holds desk.old.building earlier (S.standing desk.old.store)
        → PrintsNoMore (said_in said.entry) file_bytes earlier list_bytes (W.contents out.old) (W.contents out.new) }
{
    let until = until_of(desk.building(), said)?;
    let told = until_line(alloc, desk.building(), until)?;
    let ListInput { path, open } = deliveries;
    match open() {
        Ok(reader) => print_replies(alloc, desk, path, reader, until, out)?,
        Err(error) => return Err(RunFault::of_read(&error, path)),
    }
    print_points(alloc, desk, out)?;
    print_text(out, told.as_bytes())?;
    flush(out)
}

/// Answers each line that the reader has left, up to a moment.
fn print_replies<'a, S: Store + Drop, D: Read + Drop, W: Write>(
    alloc: Global,
    desk: &mut Desk<S>,
    path: &'a str,
    mut reader: BufReader<D>,
    until: Option<i64>,
    out: &mut W,
) -> Result<(), RunFault<'a>>
    ensures prints { OnOk result ((bytes : List ℕ) (earlier : List a_delivery) → (S.standing desk.new.store).is_honest
        → reader_remaining D.remaining reader ≡ Some bytes
        → Holds desk.old.building earlier (S.standing desk.old.store)
        → Prints desk.old.building earlier (lines_until desk.old.building until (lines_of bytes)) (W.contents out.old) (W.contents out.new)
        (S.standing desk.new.store).content) }
    ensures no_more { (bytes : List ℕ) (earlier : List a_delivery) → (S.standing desk.new.store).is_honest
        → reader_remaining D.remaining reader ≡ Some bytes
        → Holds desk.old.building earlier (S.standing desk.old.store)
        → PrintsStart desk.old.building earlier (lines_until desk.old.building until (lines_of bytes)) (W.contents out.old) (W.contents out.new) }
    ensures honest { (S.standing desk.new.store).is_honest → (S.standing desk.old.store).is_honest }
    ensures building { desk.new.building ≡ desk.old.building }
{
    let mut scratch = Scratch::new(alloc);
    let mut line = Vec::new(alloc);
    let mut text = String::new(alloc);
    for number in 1..u64::MAX {
        let is_line = read_line(path, &mut reader, &mut line)?;
        if !is_line {
            return Ok(());
        }
        let is_past = is_past(alloc, &mut scratch, desk.building(), until, line.as_slice())?;
        if is_past {
            return Ok(());
        }
        let waits = reader.buffer().is_empty();
        print_reply_and_flush(
            alloc,
            &mut scratch,
            &mut text,
            desk,
            number,
            line.as_slice(),
            waits,
            out,
        )?;
    }
    Err(RunFault::CannotRead { path })
}

/// Answers one line, with its number from 1, unless it is empty. Where the next line has to be waited for,
/// what was printed is flushed, so that whoever sends it sees the reply.
fn print_reply_and_flush<'a, S: Store + Drop, W: Write>(
    alloc: Global,
    scratch: &mut Scratch,
    text: &mut String,
    desk: &mut Desk<S>,
    number: u64,
    line: &[u8],
    waits: bool,
    out: &mut W,
) -> Result<(), RunFault<'a>>
    ensures prints { OnOk result ((earlier : List a_delivery) → (S.standing desk.new.store).is_honest
        → Holds desk.old.building earlier (S.standing desk.old.store)
        → Prints desk.old.building earlier (line.now ∷ []) (W.contents out.old) (W.contents out.new)
        (S.standing desk.new.store).content) }
    ensures no_more { (earlier : List a_delivery) → (S.standing desk.new.store).is_honest
        → Holds desk.old.building earlier (S.standing desk.old.store)
        → PrintsStart desk.old.building earlier (line.now ∷ []) (W.contents out.old) (W.contents out.new) }
    ensures honest { (S.standing desk.new.store).is_honest → (S.standing desk.old.store).is_honest }
    ensures building { desk.new.building ≡ desk.old.building }
{
    print_reply(alloc, scratch, text, desk, number, line, out)?;
    if waits { flush(out) } else { Ok(()) }
}

/// Answers one line, with its number from 1, unless it is empty.
fn print_reply<'a, S: Store + Drop, W: Write>(
    alloc: Global,
    scratch: &mut Scratch,
    text: &mut String,
    desk: &mut Desk<S>,
    number: u64,
    line: &[u8],
    out: &mut W,
) -> Result<(), RunFault<'a>>
    ensures prints { OnOk result ((earlier : List a_delivery) → (S.standing desk.new.store).is_honest
        → Holds desk.old.building earlier (S.standing desk.old.store)
        → Prints desk.old.building earlier (line.now ∷ []) (W.contents out.old) (W.contents out.new)
        (S.standing desk.new.store).content) }
    ensures no_more { (earlier : List a_delivery) → (S.standing desk.new.store).is_honest
        → Holds desk.old.building earlier (S.standing desk.old.store)
        → PrintsStart desk.old.building earlier (line.now ∷ []) (W.contents out.old) (W.contents out.new) }
    ensures honest { (S.standing desk.new.store).is_honest → (S.standing desk.old.store).is_honest }
    ensures building { desk.new.building ≡ desk.old.building }
{
    if is_empty(line) {
        return Ok(());
    }
    match answer_line(alloc, scratch, text, desk, line) {
        Ok(()) => print_text(out, text.as_bytes()),
        Err(LineFault::NotDelivery) => Err(RunFault::NotDelivery { line: number }),
        Err(LineFault::NotDone(fault)) => Err(RunFault::from(fault)),
    }
}

/// Prints the POINT line of each point, in file order.
fn print_points<'a, S: Store + Drop, W: Write>(
    alloc: Global,
    desk: &mut Desk<S>,
    out: &mut W,
) -> Result<(), RunFault<'a>>
    ensures whole { (S.standing desk.new.store).is_honest → OnOk result (Appends (W.contents out.old) (W.contents out.new)
        (point_lines desk.old.building (S.standing desk.old.store).content.tables)) }
    ensures no_more { (S.standing desk.new.store).is_honest → AppendsStart (W.contents out.old) (W.contents out.new)
        (point_lines desk.old.building (S.standing desk.old.store).content.tables) }
    ensures honest { (S.standing desk.new.store).is_honest → (S.standing desk.old.store).is_honest }
{
    let count = desk.building().points().len();
    for index in 0..count {
        let name = desk.building().points()[index].name;
        let text = point_text(alloc, desk, &name)?;
        print_text(out, text.as_bytes())?;
    }
    Ok(())
}

/// The POINT line of a point, or no line where the building lacks it.
fn point_text<'a, S: Store + Drop>(
    alloc: Global,
    desk: &mut Desk<S>,
    name: &Name,
) -> Result<String, RunFault<'a>>
    ensures text { (S.standing desk.new.store).is_honest → IfOk result (λ text. string_bytes text ≡ state_line name.now
        (state_of ((S.standing desk.old.store).content.tables.places name.now)
        (point_named desk.old.building.points name.now))) }
    ensures same { (S.standing desk.new.store).is_honest
        → OnOk result ((S.standing desk.new.store).content ≡ (S.standing desk.old.store).content) }
    ensures honest { (S.standing desk.new.store).is_honest → (S.standing desk.old.store).is_honest }
    ensures building { desk.new.building ≡ desk.old.building }
{
    match desk.point(name)? {
        Some(state) => Ok(point_line(alloc, name, state.present, state.priority)?),
        None => Ok(String::new(alloc)),
    }
}
