//! The names that stand in the tables.
ghost use Rattle.std.specs.Prelude.{◌≡◌, ◌⊎◌, ◌++◌, [], ◌∷◌, false, true, if◌then◌else◌, Err, IfErr, IfOk, OnOk, Some, string_bytes};
ghost use Rattle.std.specs.FinMap.{empty};
ghost use Rattle.std.specs.Result.{result_err};
ghost use Rattle.sqlite.specs.Held.{state};
ghost use Rattle.sqlite.specs.State.{HasCleanDisk, Survives};
ghost use Rattle.sqlite_value.specs.Order.{column};
ghost use Rattle.store_sql_rows.specs.Broken.{cannot_stand_in};
ghost use Rattle.store_sql_rows.specs.Looking.{Finds};
ghost use Rattle.store_sql_rows.specs.Ours.{IsOurs, kept_in};
ghost use Rattle.store_sql_rows.specs.Rows.{of_lower_command};
ghost use Rattle.store_sql.specs.Leaving.{Answers, out_of_memory};
ghost use Rattle.store.specs.Asked.{IsSomeBroken};
ghost use Rattle.store.specs.Asked.Asked.{AnyName, NextOf};
ghost use Rattle.store.specs.Listed.{AreNames, HasCalendar, HasPanel, HasPoint, HasSchedule};
ghost use Rattle.store_sql_rows.specs.declared.read_fault.ReadFault.TheVariants.{BadRow};
ghost use Rattle.store_sql_rows.specs.Stored.{Kept, tables_in};
ghost use Rattle.store_sql.specs.Naming.{AreAll, AreNumbered, HasName, IsKept, IsLesser, IsListed, IsNumbered, NamesStand, Tells};
ghost use Rattle.store_sql.specs.Texts.{IsNextText, after};

use crate::entries::next_entry;
use crate::finding::{next_of, shown_by};
use crate::memory::{no_memory, push, text_after};
use crate::next_names::{
    next_calendar, next_commanding_panel, next_numbered_panel, next_point, next_schedule,
};
use crate::placing::array_of;
use crate::rows::has_row;
use points::{LOWEST_PRIORITY, Name, PriorityArray};
use sqlite::{Alter, Connection, Row};
use std::alloc::Global;
use store::Names;
use store_sql_rows::{ReadFault, RowNumbers, commands};

const LEAST_NUMBER: u64 = 1;

/// One of the four lists of names.
#[derive(Clone, Copy)]
pub enum NameList {
    Panels,
    Points,
    Schedules,
    Calendars,
}

// ---- whether a name stands

// What the answer of the query on the numbers below 1 says.
fn parsed_numbers(panel: &Name, rows: Vec<Row>) -> Result<(), ReadFault>
    ensures value { (kept : Kept) → Finds (of_lower_command panel.now 1) (λ row. column row 2 ∷ []) kept.command rows.items
        → OnOk result (AreNumbered kept panel.now) }
    ensures bad { (kept : Kept) → Finds (of_lower_command panel.now 1) (λ row. column row 2 ∷ []) kept.command rows.items
        → IfErr result (λ _. cannot_stand_in kept AnyName ≡ true) }
    ensures fault { IfErr result (λ fault. fault ≡ BadRow) }
{
    match rows.first() {
        None => Ok(()),
        Some(_) => Err(ReadFault::BadRow),
    }
}

// Looks for rows of a panel with a number below 1.
fn check_numbers<S: Alter>(connection: &mut Connection<S>, panel: &Name) -> Result<(), ReadFault>
    ensures answers { Answers (λ kept _. AreNumbered kept panel.now)
        (λ kept. cannot_stand_in kept AnyName ≡ true) (state S.Store connection.old) (state S.Store connection.new) result }
{
    let rows = commands::below(connection, panel, LEAST_NUMBER)?;
    parsed_numbers(panel, rows)
}

// Whether a panel has a next number other than 1, or a row.
fn has_panel<S: Alter>(
    connection: &mut Connection<S>,
    numbers: &mut RowNumbers,
    panel: &Name,
) -> Result<bool, ReadFault>
    ensures answers { Answers (λ kept stands. Tells (HasPanel (tables_in kept) panel.now) stands
        × (cannot_stand_in kept (NextOf panel.now) ≡ false))
        (λ kept. IsSomeBroken (cannot_stand_in kept)) (state S.Store connection.old) (state S.Store connection.new) result }
{
    if next_of(connection, numbers, panel)? != LEAST_NUMBER {
        return Ok(true);
    }
    has_row(connection, panel)
}

fn stands_panel<S: Alter>(
    connection: &mut Connection<S>,
    numbers: &mut RowNumbers,
    panel: &Name,
) -> Result<bool, ReadFault>
    ensures answers { Answers (λ kept. IsNumbered kept panel.now)
        (λ kept. IsSomeBroken (cannot_stand_in kept)) (state S.Store connection.old) (state S.Store connection.new) result }
{
    check_numbers(connection, panel)?;
    has_panel(connection, numbers, panel)
}

fn has_value(array: &PriorityArray) -> bool
    ensures { Tells (array.now ≡ empty → ⊥) result }
{
    for priority in 1..=LOWEST_PRIORITY {
        if array.value_at(priority).is_some() {
            return true;
        }
    }
    false
}

fn stands_point<S: Alter>(
    connection: &mut Connection<S>,
    numbers: &mut RowNumbers,
    point: &Name,
) -> Result<bool, ReadFault>
    ensures answers { Answers (λ kept. Tells (HasPoint (tables_in kept) point.now))
        (λ kept. IsSomeBroken (cannot_stand_in kept)) (state S.Store connection.old) (state S.Store connection.new) result }
{
    Ok(has_value(&array_of(connection, numbers, point)?))
}

fn stands_schedule<S: Alter>(
    connection: &mut Connection<S>,
    numbers: &mut RowNumbers,
    schedule: &Name,
) -> Result<bool, ReadFault>
    ensures answers { Answers (λ kept. Tells (HasSchedule (tables_in kept) schedule.now))
        (λ kept. IsSomeBroken (cannot_stand_in kept)) (state S.Store connection.old) (state S.Store connection.new) result }
{
    Ok(shown_by(connection, numbers, schedule)?.is_some())
}

fn stands_calendar<S: Alter>(
    connection: &mut Connection<S>,
    calendar: &Name,
) -> Result<bool, ReadFault>
    ensures answers { Answers (λ kept. Tells (HasCalendar (tables_in kept) calendar.now))
        (λ kept. IsSomeBroken (cannot_stand_in kept)) (state S.Store connection.old) (state S.Store connection.new) result }
{
    Ok(next_entry(connection, calendar, "")?.is_some())
}

fn stands_in<S: Alter>(
    list: NameList,
    connection: &mut Connection<S>,
    numbers: &mut RowNumbers,
    name: &Name,
) -> Result<bool, ReadFault>
    ensures answers { Answers (λ kept. IsListed list kept name.now)
        (λ kept. IsSomeBroken (cannot_stand_in kept)) (state S.Store connection.old) (state S.Store connection.new) result }
{
    // What is printed is a name, as a row's own has to be.
    let _name = name.as_str();
    match list {
        NameList::Panels => stands_panel(connection, numbers, name),
        NameList::Points => stands_point(connection, numbers, name),
        NameList::Schedules => stands_schedule(connection, numbers, name),
        NameList::Calendars => stands_calendar(connection, name),
    }
}

// ---- the next name that may stand

fn lesser(first: Option<Name>, second: Option<Name>) -> Option<Name>
    ensures { IsLesser first second result }
{
    match (first, second) {
        (Some(one), Some(other)) => { if other < one { Some(other) } else { Some(one) } }
        (None, only) => only,
        (only, None) => only,
    }
}

fn next_panel<S: Alter>(
    connection: &mut Connection<S>,
    from: &str,
) -> Result<Option<Name>, ReadFault>
    ensures answers { Answers (λ kept. IsNextText (λ name. HasName kept.panel name ⊎ HasName kept.command name) from.now)
        (λ kept. cannot_stand_in kept AnyName ≡ true) (state S.Store connection.old) (state S.Store connection.new) result }
{
    let numbered = next_numbered_panel(connection, from)?;
    let commanding = next_commanding_panel(connection, from)?;
    Ok(lesser(numbered, commanding))
}

fn next_in<S: Alter>(
    list: NameList,
    connection: &mut Connection<S>,
    from: &str,
) -> Result<Option<Name>, ReadFault>
    ensures answers { Answers (λ kept. IsNextText (IsKept list kept) from.now)
        (λ kept. cannot_stand_in kept AnyName ≡ true) (state S.Store connection.old) (state S.Store connection.new) result }
{
    match list {
        NameList::Panels => next_panel(connection, from),
        NameList::Points => next_point(connection, from),
        NameList::Schedules => next_schedule(connection, from),
        NameList::Calendars => next_calendar(connection, from),
    }
}

// ---- the lists

// Puts a name that stands at the end of a list.
fn push_if(names: &mut Vec<Name>, name: Name, stands: bool) -> Result<(), ReadFault>
    ensures items { OnOk result (names.new.items ≡ (if stands then names.old.items ++ name ∷ [] else names.old.items)) }
    ensures fault { IfErr result (λ fault. fault ≡ out_of_memory) }
{
    if stands { push(names, name) } else { Ok(()) }
}

fn names_in<S: Alter>(
    alloc: Global,
    list: NameList,
    connection: &mut Connection<S>,
    numbers: &mut RowNumbers,
) -> Result<Vec<Name>, ReadFault>
    ensures answers { Answers (λ kept it. AreAll list kept it.items)
        (λ kept. IsSomeBroken (cannot_stand_in kept)) (state S.Store connection.old) (state S.Store connection.new) result }
{
    let mut names = Vec::new(alloc);
    let mut from = String::new(alloc);
    for _ in 0..u64::MAX {
        match next_in(list, connection, &from)? {
            Some(name) => {
                let stands = stands_in(list, connection, numbers, &name)?;
                from = text_after(alloc, name.as_str())?;
                push_if(&mut names, name, stands)?;
            }
            None => return Ok(names),
        }
    }
    // So many names have no room in memory.
    Err(no_memory())
}

/// The names that stand in the tables. The numbers of the rows that are read are noted.
pub fn names_of<S: Alter>(
    alloc: Global,
    connection: &mut Connection<S>,
    numbers: &mut RowNumbers,
) -> Result<Names, ReadFault>
    ensures answers { Answers (λ kept it. AreNames (tables_in kept) it × NamesStand kept)
        (λ kept. IsSomeBroken (cannot_stand_in kept)) (state S.Store connection.old) (state S.Store connection.new) result }
{
    let panels = names_in(alloc, NameList::Panels, connection, numbers)?;
    let points = names_in(alloc, NameList::Points, connection, numbers)?;
    let schedules = names_in(alloc, NameList::Schedules, connection, numbers)?;
    let calendars = names_in(alloc, NameList::Calendars, connection, numbers)?;
    Ok(Names {
        panels,
        points,
        schedules,
        calendars,
    })
}
