//! The check of a building file and a database beside it.
ghost use Rattle.std.specs.Prelude.{◌≡◌, IfOk, IfSome, List, ℕ, None, Some};
ghost use Rattle.std.specs.Io.KnownBytes.{Keeps};
ghost use Rattle.std.specs.Result.{result_err};
ghost use Rattle.cli_common.specs.Input.{bytes_of};
ghost use Rattle.store.specs.Tables.{Tables};
ghost use Rattle.cli_check.specs.DatabaseCheck.{Finds, IsChecked, Tells, status_of};

use crate::check_fault::CheckFault;
use crate::detail::Detail;
use crate::explained::building_in;
use crate::survey_text::survey_text;
use building::Building;
use cli_common::{Input, RunFault, Status, print_whole};
use desk_adopt::{Finding, survey_tables};
use std::alloc::Global;
use std::io::{Read, Write};
use store::{OpenFault, Store};

/// How a check ended, and the store that it opened, as it stands then, if its tables were looked over.
#[derive(Drop)]
pub struct Checked<S> {
    pub status: Status,
    pub store: Option<S>,
}

/// Prints what of the tables of the store that is found does not suit the building of a file, a line each, with
/// `Status::Fault`; where all suits, what the building has and what the tables hold: `desk check FILE DB`. The store is
/// looked for after the building is read, and is only read. Where there is none, that is printed to `fault` with the
/// path of the database, as each fault is, as one line; in detail a fault of the building file has a second line, which
/// explains it: `desk check --explain FILE DB`.
pub fn check_database<'a, B: Read + Drop, S: Store + Drop, O, W: Write, F: Write>(
    alloc: Global,
    file: Input<'a, B>,
    detail: Detail,
    database: &'a str,
    opener: O,
    out: &mut W,
    fault: &mut F,
) -> Checked<S>
where
    O: FnOnce() -> Result<Option<S>, OpenFault>,
    requires { O.IsAlwaysCallable opener }
    ensures checked { IfSome result.store (λ left. (bytes : List ℕ) → bytes_of B.remaining file.entry.reader ≡ Some bytes
        → IsChecked S.standing (O.post opener) bytes result.status left (W.contents out.old) (W.contents out.new)) }
    ensures unchecked { result.store ≡ None → result.status ≡ Status.Done → ⊥ }
    ensures quiet { result.status ≡ Status.Done → Keeps (F.contents fault.old) (F.contents fault.new) }
{
    match check_over(alloc, file, detail, database, opener, out) {
        Ok((status, store)) => Checked {
            status,
            store: Some(store),
        },
        Err(end) => {
            end.print(alloc, fault);
            Checked {
                status: end.status(),
                store: None,
            }
        }
    }
}

fn check_over<'a, B: Read + Drop, S: Store + Drop, O, W: Write>(
    alloc: Global,
    file: Input<'a, B>,
    detail: Detail,
    database: &'a str,
    opener: O,
    out: &mut W,
) -> Result<(Status, S), CheckFault<'a>>
where
    O: FnOnce() -> Result<Option<S>, OpenFault>,
    requires { O.IsAlwaysCallable opener }
    ensures { IfOk result (λ printed. (bytes : List ℕ) → bytes_of B.remaining file.entry.reader ≡ Some bytes
        → IsChecked S.standing (O.post opener) bytes printed.0 printed.1 (W.contents out.old) (W.contents out.new)) }
{
    let building = building_in(alloc, file, detail)?;
    let mut store = found(database, opener)?;
    let surveyed = print_survey(alloc, &mut store, &building, out);
    let status = surveyed?;
    Ok((status, store))
}

/// The store that is found.
fn found<'a, S: Store + Drop, O>(database: &'a str, opener: O) -> Result<S, CheckFault<'a>>
where
    O: FnOnce() -> Result<Option<S>, OpenFault>,
    requires { O.IsAlwaysCallable opener }
    ensures { (tables : Tables) → Finds (O.post opener) (λ store. (S.standing store).content.tables ≡ tables)
        → IfOk result (λ store. (S.standing store).content.tables ≡ tables) }
{
    match opener() {
        Ok(Some(store)) => Ok(store),
        Ok(None) => Err(CheckFault::Run(RunFault::NoDatabase { path: database })),
        Err(fault) => Err(CheckFault::Run(RunFault::from(fault))),
    }
}

/// Prints what is found of the tables, and answers the status.
fn print_survey<'a, S: Store, W: Write>(
    alloc: Global,
    store: &mut S,
    building: &Building,
    out: &mut W,
) -> Result<Status, RunFault<'a>>
    ensures reported { (S.standing store.new).is_honest → IfOk result (λ status. Tells building.now
        (S.standing store.old).content.tables status (W.contents out.old) (W.contents out.new)) }
    ensures honest { (S.standing store.new).is_honest → (S.standing store.old).is_honest }
{
    let survey = survey_tables(alloc, store, building)?;
    let text = survey_text(alloc, building, &survey)?;
    print_whole(out, text.as_str())?;
    Ok(status_of(survey.findings.as_slice()))
}

/// The status of a check that found this.
fn status_of(findings: &[Finding]) -> Status
    ensures { result ≡ status_of findings.now }
{
    if findings.is_empty() {
        Status::Done
    } else {
        Status::Fault
    }
}
