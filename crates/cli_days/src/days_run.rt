//! The runs that list days.
ghost use Rattle.std.specs.Prelude.{◌≡◌, IfOk, IfSome, IsOk, List, None, OnErr, OnOk, Some};
ghost use Rattle.std.specs.List.{flat_map};
ghost use Rattle.std.specs.Io.KnownBytes.{Appends, Keeps};
ghost use Rattle.cli_common.specs.Input.{bytes_of};
ghost use Rattle.desk_settling.specs.Calendars.{Tells, calendars_of};
ghost use Rattle.points.specs.Beginnings.{AppendsStart};
ghost use Rattle.points.specs.Texts.{Text};
ghost use Rattle.store.specs.Tables.{Tables};
ghost use Rattle.cli_days.specs.DayLines.{day_lines, days_text};
ghost use Rattle.cli_days.specs.Listed.{Finds, IsListed, Lists, ListsNoMore, SpellsRange};

use crate::calendars::calendars_with;
use crate::day_lines::day_lines;
use crate::range_days::days_in;
use building::Building;
use cli_common::{Input, RunFault, Status, flush, print_text, read_building};
use dates::{Day, Range};
use sched::Calendar;
use std::alloc::Global;
use std::io::{Read, Write};
use store::{OpenFault, Store};
use store_memory::MemStore;

/// The first and the last day of a range, each as `YYYY-MM-DD`.
#[derive(Clone, Copy)]
pub struct Bounds<'a> {
    pub from: &'a str,
    pub to: &'a str,
}

/// How a listing over a database ended, and the store that was found, as it stands then, if it was read.
#[derive(Drop)]
pub struct Listed<S> {
    pub status: Status,
    pub store: Option<S>,
}

/// Prints the days of a range on which some exception of a schedule of the building of a file speaks, a line for each
/// such exception: `desk days FILE FROM TO`. The calendars have the entries of the file.
///
/// A range that ends before it begins has no day. A fault is one line on `fault`, and ends the run: a file that can't be
/// read or is no building, a bound that is no day from 1900-01-01 to 2154-12-31, lack of memory, or an output that fails.
pub fn days<B: Read + Drop, W: Write, F: Write>(
    alloc: Global,
    file: Input<'_, B>,
    bounds: Bounds<'_>,
    out: &mut W,
    fault: &mut F,
) -> Status
    ensures done { result ≡ Status.Done → (bytes : Text) → bytes_of B.remaining file.entry.reader ≡ Some bytes
        → Lists bytes bounds.entry.from.now bounds.entry.to.now (W.contents out.old) (W.contents out.new) }
    ensures quiet { result ≡ Status.Done → Keeps (F.contents fault.old) (F.contents fault.new) }
    ensures no_more { (bytes : Text) → bytes_of B.remaining file.entry.reader ≡ Some bytes
        → ListsNoMore bytes bounds.entry.from.now bounds.entry.to.now (W.contents out.old) (W.contents out.new) }
{
    let listed = days_over(alloc, file, bounds, out);
    end_of(alloc, listed, out, fault)
}

/// The same over the file and the database beside it: `desk days FILE DB FROM TO`. The calendars also have the entries
/// that were imported into the store that is found, which is only read. It is looked for after the building and the
/// bounds are read; where there is none, that is the fault, with the path of the database.
pub fn days_in_database<'a, B: Read + Drop, S: Store + Drop, O, W: Write, F: Write>(
    alloc: Global,
    file: Input<'a, B>,
    bounds: Bounds<'_>,
    database: &'a str,
    opener: O,
    out: &mut W,
    fault: &mut F,
) -> Listed<S>
where
    O: FnOnce() -> Result<Option<S>, OpenFault>,
    requires { O.IsAlwaysCallable opener }
    ensures listed { IfSome result.store (λ left. (bytes : Text) → bytes_of B.remaining file.entry.reader ≡ Some bytes
        → IsListed S.standing (O.post opener) bytes bounds.entry.from.now bounds.entry.to.now result.status left
        (W.contents out.old) (W.contents out.new)) }
    ensures unlisted { result.store ≡ None → (result.status ≡ Status.Done → ⊥) × Keeps (W.contents out.old) (W.contents out.new) }
    ensures quiet { result.status ≡ Status.Done → Keeps (F.contents fault.old) (F.contents fault.new) }
{
    match list_over(alloc, file, bounds, database, opener, out, fault) {
        Ok((status, store)) => Listed {
            status,
            store: Some(store),
        },
        Err(end) => {
            end.print(alloc, fault);
            Listed {
                status: end.status(),
                store: None,
            }
        }
    }
}

fn days_over<'a, B: Read + Drop, W: Write>(
    alloc: Global,
    file: Input<'a, B>,
    bounds: Bounds<'_>,
    out: &mut W,
) -> Result<(), RunFault<'a>>
    ensures done { OnOk result ((bytes : Text) → bytes_of B.remaining file.entry.reader ≡ Some bytes
        → Lists bytes bounds.entry.from.now bounds.entry.to.now (W.contents out.old) (W.contents out.new)) }
    ensures no_more { (bytes : Text) → bytes_of B.remaining file.entry.reader ≡ Some bytes
        → ListsNoMore bytes bounds.entry.from.now bounds.entry.to.now (W.contents out.old) (W.contents out.new) }
{
    let building = read_building(alloc, file)?;
    let range = asked_range(bounds)?;
    let mut store = MemStore::new(alloc);
    print_over(alloc, &mut store, &building, &range, out)
}

/// Lists the days over the store that is found, and hands the store back.
fn list_over<'a, B: Read + Drop, S: Store + Drop, O, W: Write, F: Write>(
    alloc: Global,
    file: Input<'a, B>,
    bounds: Bounds<'_>,
    database: &'a str,
    opener: O,
    out: &mut W,
    fault: &mut F,
) -> Result<(Status, S), RunFault<'a>>
where
    O: FnOnce() -> Result<Option<S>, OpenFault>,
    requires { O.IsAlwaysCallable opener }
    ensures listed { IfOk result (λ ended. (bytes : Text) → bytes_of B.remaining file.entry.reader ≡ Some bytes
        → IsListed S.standing (O.post opener) bytes bounds.entry.from.now bounds.entry.to.now ended.0 ended.1
        (W.contents out.old) (W.contents out.new)) }
    ensures unlisted { OnErr result (Keeps (W.contents out.old) (W.contents out.new)) }
    ensures quiet { IfOk result (λ ended. ended.0 ≡ Status.Done → Keeps (F.contents fault.old) (F.contents fault.new)) }
{
    let building = read_building(alloc, file)?;
    let range = asked_range(bounds)?;
    let mut store = found(database, opener)?;
    let listed = print_over(alloc, &mut store, &building, &range, out);
    let status = end_of(alloc, listed, out, fault);
    Ok((status, store))
}

/// The range whose ends the words spell.
fn asked_range<'a>(bounds: Bounds<'_>) -> Result<Range, RunFault<'a>>
    ensures { IfOk result (λ range. SpellsRange bounds.entry.from.now bounds.entry.to.now range) }
{
    let Some(first) = Day::read(bounds.from) else {
        return Err(RunFault::NotDay);
    };
    let Some(last) = Day::read(bounds.to) else {
        return Err(RunFault::NotDay);
    };
    Ok(Range {
        start: Some(first),
        end: Some(last),
    })
}

/// The store that is found.
fn found<'a, S: Store + Drop, O>(database: &'a str, opener: O) -> Result<S, RunFault<'a>>
where
    O: FnOnce() -> Result<Option<S>, OpenFault>,
    requires { O.IsAlwaysCallable opener }
    ensures { (tables : Tables) → Finds (O.post opener) (λ store. (S.standing store).content.tables ≡ tables)
        → IfOk result (λ store. (S.standing store).content.tables ≡ tables) }
{
    match opener() {
        Ok(Some(store)) => Ok(store),
        Ok(None) => Err(RunFault::NoDatabase { path: database }),
        Err(fault) => Err(RunFault::from(fault)),
    }
}

/// Prints the days of a range over the entries of the building and those of a store, which is only read.
fn print_over<'a, S: Store, W: Write>(
    alloc: Global,
    store: &mut S,
    building: &Building,
    range: &Range,
    out: &mut W,
) -> Result<(), RunFault<'a>>
    ensures honest { (S.standing store.new).is_honest → (S.standing store.old).is_honest }
    ensures kept { (S.standing store.new).is_honest → OnOk result ((S.standing store.new).content ≡ (S.standing store.old).content) }
    ensures whole { (S.standing store.new).is_honest → (imported : Text → List Text)
        → Tells (S.standing store.old).content.tables.imported imported
        → OnOk result (Appends (W.contents out.old) (W.contents out.new) (days_text building.now (calendars_of building.now imported) range.now)) }
    ensures no_more { (S.standing store.new).is_honest → (imported : Text → List Text)
        → Tells (S.standing store.old).content.tables.imported imported
        → AppendsStart (W.contents out.old) (W.contents out.new) (days_text building.now (calendars_of building.now imported) range.now) }
{
    let calendars = calendars_with(alloc, store, building)?;
    print_days(alloc, building, calendars.as_slice(), range, out)
}

fn print_days<'a, W: Write>(
    alloc: Global,
    building: &Building,
    calendars: &[Calendar],
    range: &Range,
    out: &mut W,
) -> Result<(), RunFault<'a>>
    ensures whole { OnOk result (Appends (W.contents out.old) (W.contents out.new) (days_text building.now calendars.now range.now)) }
    ensures no_more { AppendsStart (W.contents out.old) (W.contents out.new) (days_text building.now calendars.now range.now) }
{
    let days = days_in(alloc, range)?;
    print_each(alloc, building, calendars, days.as_slice(), out)?;
    flush(out)
}

fn print_each<'a, W: Write>(
    alloc: Global,
    building: &Building,
    calendars: &[Calendar],
    days: &[Day],
    out: &mut W,
) -> Result<(), RunFault<'a>>
    ensures whole { OnOk result (Appends (W.contents out.old) (W.contents out.new) (flat_map (day_lines building.now calendars.now) days.now)) }
    ensures no_more { AppendsStart (W.contents out.old) (W.contents out.new) (flat_map (day_lines building.now calendars.now) days.now) }
{
    for day in days {
        let text = day_lines(alloc, building, calendars, *day)?;
        print_text(out, text.as_bytes())?;
    }
    Ok(())
}

/// What ends a run: where it stopped, the fault is printed.
fn end_of<'a, W: Write, F: Write>(
    alloc: Global,
    listed: Result<(), RunFault<'a>>,
    out: &mut W,
    fault: &mut F,
) -> Status
    ensures done { result ≡ Status.Done → IsOk listed.entry }
    ensures quiet { result ≡ Status.Done → Keeps (F.contents fault.old) (F.contents fault.new) }
    ensures out { Keeps (W.contents out.old) (W.contents out.new) }
{
    match listed {
        Ok(()) => Status::Done,
        Err(end) => {
            let end = end.after(out.flush());
            end.print(alloc, fault);
            end.status()
        }
    }
}
