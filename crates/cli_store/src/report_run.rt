//! The report of a day, from the file of the building to its text.
ghost use Rattle.std.specs.Prelude.{◌≡◌, List, ℕ, Some, IfErr, IfOk, OnOk};
ghost use Rattle.std.specs.Io.KnownBytes.{Keeps};
ghost use Rattle.dates.specs.Day.{SpellsDay};
ghost use Rattle.deliveries.specs.declared.delivery.Delivery.{Delivery as a_delivery};
ghost use Rattle.deliveries.specs.Delivered.{Holds};
ghost use Rattle.cli_common.specs.Input.{bytes_of};
ghost use Rattle.cli_common.specs.declared.run_fault.RunFault.{RunFault as a_fault};
ghost use Rattle.jiff_core.specs.declared.civil.date.Date.{Date};
ghost use Rattle.cli_store.specs.Answered.{Opens};
ghost use Rattle.cli_store.specs.Reported.{IsReported, Reports};

use crate::answering::open_desk;
use crate::ended::{Ended, Stopped};
use building::Building;
use cli_common::{Input, RunFault, Status, print_whole, read_building};
use cli_record::BesideFault;
use dates::Day;
use desk::Desk;
use std::alloc::Global;
use std::io::{Read, Write};
use store::{OpenFault, Store};

/// Prints the report of a day over the tables of the store that is opened, over the building of a file: `desk report`.
/// The store is opened after the building and the day are read, and is only read.
///
/// A text that is not `YYYY-MM-DD` of a day from 1900-01-01 to 2154-12-31 is printed to `fault`, as each fault is, as
/// one line.
pub fn report<'a, B: Read + Drop, S: Store + Drop, O, W: Write, F: Write>(
    alloc: Global,
    file: Input<'a, B>,
    opener: O,
    date: &str,
    out: &mut W,
    fault: &mut F,
) -> Ended<S>
where
    O: FnOnce() -> Result<S, OpenFault>,
    requires { O.IsAlwaysCallable opener }
    ensures done { result.status ≡ Status.Done → (file_bytes : List ℕ)
        → bytes_of B.remaining file.entry.reader ≡ Some file_bytes
        → (left : S) × (result.store ≡ Some left)
        × IsReported S.standing (O.post opener) date.now file_bytes left (W.contents out.old) (W.contents out.new) }
    ensures quiet { result.status ≡ Status.Done → Keeps (F.contents fault.old) (F.contents fault.new) }
{
    match report_over(alloc, file, opener, date, out) {
        Ok(store) => Ended {
            status: Status::Done,
            store: Some(store),
        },
        Err(end) => end.print(alloc, fault),
    }
}

fn report_over<'a, B: Read + Drop, S: Store + Drop, O, W: Write>(
    alloc: Global,
    file: Input<'a, B>,
    opener: O,
    date: &str,
    out: &mut W,
) -> Result<S, Stopped<'a, S>>
where
    O: FnOnce() -> Result<S, OpenFault>,
    requires { O.IsAlwaysCallable opener }
    ensures { IfOk result (λ left. (file_bytes : List ℕ)
        → bytes_of B.remaining file.entry.reader ≡ Some file_bytes
        → IsReported S.standing (O.post opener) date.now file_bytes left (W.contents out.old) (W.contents out.new)) }
{
    let building = read_building(alloc, file)?;
    let day = asked_day(date)?;
    print_report(alloc, building, opener, day, out)
}

/// The day that a text spells.
fn asked_day<'a>(date: &str) -> Result<Day, RunFault<'a>>
    ensures day { IfOk result (λ day. SpellsDay date.now day) }
    ensures none { IfErr result (λ fault. fault ≡ a_fault.NotDay → (day : Date) → SpellsDay date.now day → ⊥) }
{
    match Day::read(date) {
        Some(day) => Ok(day),
        None => Err(RunFault::NotDay),
    }
}

/// Prints the report of a day. The desk is lent, so that no exit here drops one, which is dear to prove.
fn print_day<'a, S: Store + Drop, W: Write>(
    desk: &mut Desk<S>,
    day: Day,
    out: &mut W,
) -> Result<(), RunFault<'a>>
    ensures reports { OnOk result ((earlier : List a_delivery) → (S.standing desk.new.store).is_honest
        → Holds desk.old.building earlier (S.standing desk.old.store)
        → Reports desk.old.building earlier day (S.standing desk.new.store) (W.contents out.old) (W.contents out.new)) }
    ensures honest { OnOk result ((S.standing desk.new.store).is_honest → (S.standing desk.old.store).is_honest) }
{
    let text = desk.report(day)?;
    print_whole(out, text.as_str())?;
    Ok(())
}

/// Prints the report of a day over the store that is opened, and hands the store back.
fn print_report<'a, S: Store + Drop, O, W: Write>(
    alloc: Global,
    building: Building,
    opener: O,
    day: Day,
    out: &mut W,
) -> Result<S, Stopped<'a, S>>
where
    O: FnOnce() -> Result<S, OpenFault>,
    requires { O.IsAlwaysCallable opener }
    ensures { IfOk result (λ left. (earlier : List a_delivery)
        → Opens (O.post opener) (λ store. Holds building earlier (S.standing store))
        → (S.standing left).is_honest
        → Reports building earlier day (S.standing left) (W.contents out.old) (W.contents out.new)) }
{
    let mut desk = open_desk(alloc, building, opener)?;
    let answered = print_day(&mut desk, day, out);
    let store = desk.into_store();
    match answered {
        Ok(()) => Ok(store),
        Err(fault) => Err(Stopped {
            fault: BesideFault::from(fault),
            store: Some(store),
        }),
    }
}
