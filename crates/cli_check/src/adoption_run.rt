//! An adoption.
ghost use Rattle.std.specs.Prelude.{◌≡◌, IfOk, IfSome, IsTrue, List, None, OnOk, ℕ, Some, map, string_bytes};
ghost use Rattle.std.specs.Io.KnownBytes.{Keeps};
ghost use Rattle.std.specs.Result.{result_err};
ghost use Rattle.desk_adopt.specs.Notes.{AreNotes};
ghost use Rattle.desk.specs.Opening.{is_ticked};
ghost use Rattle.cli_check.specs.AdoptionRun.{Finds, IsAdoption, Makes, TakesAlong};
ghost use Rattle.cli_common.specs.Input.{bytes_of};
ghost use Rattle.store.specs.Standing.{Content as a_content, Reads, sound};
ghost use Rattle.store.specs.Tables.{Tables, no_tables};

use crate::adoption_fault::{AdoptionFault, FindFault, MakeFault};
use crate::adoption_text::adoption_text;
use crate::renamings::renamings_in;
use building::Building;
use cli_common::{Input, RunFault, Status, read_building};
use desk_adopt::{Notes, Renaming, adopt, adopted_tables_suit, adoption_notes, survey_tables};
use local_times::local_time;
use std::alloc::Global;
use std::io::{Read, Write};
use store::{Store, StoreFault};

/// What an adoption or a rebuild has made: the two stores, as they stand then, and what is to be printed of it.
#[derive(Drop)]
pub struct TakenAlong<S, T> {
    /// The store that was read.
    pub from: S,
    /// The one that took its tables along.
    pub into: T,
    /// What has another name, what stays behind, which renamings count nowhere, and what the new tables hold.
    pub text: String,
}

/// How such a run ended, and what it has made where it was carried out.
#[derive(Drop)]
pub struct Adopted<S, T> {
    pub status: Status,
    pub taken: Option<TakenAlong<S, T>>,
}

/// What is looked at in the earlier tables.
#[derive(Drop)]
struct Looked {
    last_tick: Option<i64>,
    notes: Notes,
}

/// What is to be noted of the earlier tables, and their last tick.
fn look_at<S: Store>(
    alloc: Global,
    building: &Building,
    renamings: &[Renaming],
    store: &mut S,
) -> Result<Looked, StoreFault>
    ensures reads { Reads (result_err result) (S.standing store.old) (S.standing store.new) }
    ensures noted { (S.standing store.new).is_honest → IfOk result (λ looked.
        AreNotes building.now renamings.now (S.standing store.old).content.tables
        looked.notes.renamed.items looked.notes.left.items looked.notes.unused.items) }
    ensures last { (S.standing store.new).is_honest → IfOk result (λ looked.
        looked.last_tick ≡ (S.standing store.old).content.tables.last_tick) }
{
    let notes = adoption_notes(alloc, building, renamings, store)?;
    let last_tick = store.last_tick()?;
    Ok(Looked { last_tick, notes })
}

/// Refuses a last tick, if there was one, at whose moment the building's clock shows no time.
fn refuse_timeless<'a>(building: &Building, last: Option<i64>) -> Result<(), AdoptionFault<'a>>
    ensures { OnOk result (IsTrue (is_ticked building.now last)) }
{
    match last {
        Some(moment) if local_time(building.zone(), moment).is_none() => {
            Err(AdoptionFault::NoTime { moment })
        }
        _ => Ok(()),
    }
}

/// Takes along what the building has in the first store into the second, which is empty. The text tells what has another
/// name, what stays behind, which renamings count nowhere and what the new tables hold. `made` is the path of the
/// second.
fn take_along<'a, S: Store, T: Store>(
    alloc: Global,
    building: &Building,
    renamings: &[Renaming],
    from: &mut S,
    into: &mut T,
    made: &'a str,
) -> Result<String, AdoptionFault<'a>>
    ensures honest { OnOk result ((S.standing from.new).is_honest → (S.standing from.old).is_honest) }
    ensures taken { IfOk result (λ text. (S.standing from.new).is_honest → (T.standing into.new).is_honest
        → (T.standing into.old).content ≡ sound no_tables
        → TakesAlong building.now renamings.now (S.standing from.old).content.tables (T.standing into.new).content
        (string_bytes text)) }
{
    adopted_tables_suit();
    let looked = look_at(alloc, building, renamings, from)?;
    refuse_timeless(building, looked.last_tick)?;
    match adopt(alloc, building, renamings, from, into) {
        Ok(()) => {}
        Err(fault) => return Err(AdoptionFault::of_adopting(fault, made)),
    }
    let survey = match survey_tables(alloc, into, building) {
        Ok(survey) => survey,
        Err(fault) => return Err(AdoptionFault::of_writing(fault, made)),
    };
    Ok(adoption_text(alloc, &looked.notes, &survey.holdings)?)
}

/// The store that is found.
fn found<'a, S: Store + Drop, O>(database: &'a str, opener: O) -> Result<S, AdoptionFault<'a>>
where
    O: FnOnce() -> Result<Option<S>, FindFault>,
    requires { O.IsAlwaysCallable opener }
    ensures { (tables : Tables) → Finds (O.post opener) (λ store. (S.standing store).content.tables ≡ tables)
        → IfOk result (λ store. (S.standing store).content.tables ≡ tables) }
{
    match opener() {
        Ok(Some(store)) => Ok(store),
        Ok(None) => Err(AdoptionFault::Run(RunFault::NoDatabase { path: database })),
        Err(fault) => Err(AdoptionFault::of_finding(fault, database)),
    }
}

/// The store that is made.
fn made<'a, T: Store + Drop, N>(path: &'a str, maker: N) -> Result<T, AdoptionFault<'a>>
where
    N: FnOnce() -> Result<T, MakeFault>,
    requires { N.IsAlwaysCallable maker }
    ensures { (content : a_content) → Makes (N.post maker) (λ store. (T.standing store).content ≡ content)
        → IfOk result (λ store. (T.standing store).content ≡ content) }
{
    match maker() {
        Ok(store) => Ok(store),
        Err(fault) => Err(AdoptionFault::of_making(fault, path)),
    }
}

/// The paths of the two databases, as they were given.
#[derive(Clone, Copy)]
pub struct Paths<'a> {
    /// The one that is read.
    pub database: &'a str,
    /// The one that is made.
    pub made: &'a str,
}

/// Takes along what the building of a file has in the store that is found into the one that is made, which is empty:
/// `desk adopt FILE DB NEW`. The texts are those of `--rename`. The first store is only read. Nothing is printed but a
/// fault, as one line on `fault`: where the store was made by then, it is let go with what it has, nothing or all that
/// was taken along.
pub fn adopt_database<'a, B: Read + Drop, S: Store + Drop, T: Store + Drop, O, N, F: Write>(
    alloc: Global,
    file: Input<'a, B>,
    texts: &[&str],
    paths: Paths<'a>,
    opener: O,
    maker: N,
    fault: &mut F,
) -> Adopted<S, T>
where
    O: FnOnce() -> Result<Option<S>, FindFault>,
    N: FnOnce() -> Result<T, MakeFault>,
    requires opens { O.IsAlwaysCallable opener }
    requires makes { N.IsAlwaysCallable maker }
    ensures adopted { IfSome result.taken (λ it. (bytes : List ℕ) → bytes_of B.remaining file.entry.reader ≡ Some bytes
        → IsAdoption S.standing T.standing (O.post opener) (N.post maker) bytes (map (λ text. text.now) texts.now)
        it.from it.into (string_bytes it.text)) }
    ensures done { result.status ≡ Status.Done → result.taken ≡ None → ⊥ }
    ensures quiet { result.status ≡ Status.Done → Keeps (F.contents fault.old) (F.contents fault.new) }
{
    match adopt_over(alloc, file, texts, paths, opener, maker) {
        Ok(taken) => Adopted {
            status: Status::Done,
            taken: Some(taken),
        },
        Err(end) => {
            end.print(alloc, fault);
            Adopted {
                status: end.status(),
                taken: None,
            }
        }
    }
}

fn adopt_over<'a, B: Read + Drop, S: Store + Drop, T: Store + Drop, O, N>(
    alloc: Global,
    file: Input<'a, B>,
    texts: &[&str],
    paths: Paths<'a>,
    opener: O,
    maker: N,
) -> Result<TakenAlong<S, T>, AdoptionFault<'a>>
where
    O: FnOnce() -> Result<Option<S>, FindFault>,
    N: FnOnce() -> Result<T, MakeFault>,
    requires opens { O.IsAlwaysCallable opener }
    requires makes { N.IsAlwaysCallable maker }
    ensures { IfOk result (λ it. (bytes : List ℕ) → bytes_of B.remaining file.entry.reader ≡ Some bytes
        → IsAdoption S.standing T.standing (O.post opener) (N.post maker) bytes (map (λ text. text.now) texts.now)
        it.from it.into (string_bytes it.text)) }
{
    let building = read_building(alloc, file)?;
    let renamings = renamings_in(alloc, &building, texts)?;
    let mut from = found(paths.database, opener)?;
    let mut into = made(paths.made, maker)?;
    let told = take_along(
        alloc,
        &building,
        renamings.as_slice(),
        &mut from,
        &mut into,
        paths.made,
    );
    let text = told?;
    Ok(TakenAlong { from, into, text })
}
