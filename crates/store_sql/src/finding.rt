//! What is kept under a key.
ghost use Rattle.points.specs.declared.numbered_row.TheConstants.{LAST_NUMBER};
ghost use Rattle.std.specs.Prelude.{◌≡◌, ◌≤◌, false, true, Err, IfErr, IfOk, [], ◌∷◌};
ghost use Rattle.std.specs.Result.{result_err};
ghost use Rattle.sqlite.specs.Held.{state};
ghost use Rattle.sqlite.specs.State.{HasCleanDisk, Survives};
ghost use Rattle.sqlite_value.specs.Order.{column};
ghost use Rattle.store_sql_rows.specs.Broken.{cannot_stand_in};
ghost use Rattle.store.specs.Asked.Asked.{LastTick, NextOf, RowOf, ShownBy};
ghost use Rattle.store_sql_rows.specs.Looking.{Finds};
ghost use Rattle.store_sql_rows.specs.Ours.{IsOurs, kept_in};
ghost use Rattle.store_sql.specs.Leaving.{Answers};
ghost use Rattle.store_sql_rows.specs.declared.read_fault.ReadFault.TheVariants.{BadRow};
ghost use Rattle.store_sql_rows.specs.Rows.{of_command, of_panel, of_schedule};
ghost use Rattle.store_sql_rows.specs.Stored.{Kept, tables_in};

use crate::only::only;
use points::{CommandRow, LAST_NUMBER, Name};
use sqlite::{Alter, Connection, Row};
use store_sql_rows::{
    ReadFault, RowNumbers, command_at, commands, count_at, desk_row, optional_at, panels, schedules,
};

const LEAST_NUMBER: u64 = 1;

// What the answer of the query on a panel says.
fn parsed_next(panel: &Name, rows: Vec<Row>) -> Result<u64, ReadFault>
    ensures value { (kept : Kept) → Finds (of_panel panel.now) (λ row. column row 2 ∷ column row 0 ∷ []) kept.panel rows.items
        → IfOk result (λ it. it ≡ (tables_in kept).next panel.now) }
    ensures bad { (kept : Kept) → Finds (of_panel panel.now) (λ row. column row 2 ∷ column row 0 ∷ []) kept.panel rows.items
        → IfErr result (λ _. cannot_stand_in kept (NextOf panel.now) ≡ true) }
    ensures stood { (kept : Kept) → Finds (of_panel panel.now) (λ row. column row 2 ∷ column row 0 ∷ []) kept.panel rows.items
        → IfOk result (λ _. cannot_stand_in kept (NextOf panel.now) ≡ false) }
    ensures fault { IfErr result (λ fault. fault ≡ BadRow) }
{
    // What is asked for is a name, as a row's own has to be.
    let _name = panel.as_str();
    match only(rows)? {
        None => Ok(LEAST_NUMBER),
        Some(row) => count_at(&row, 0, LEAST_NUMBER, LAST_NUMBER + 1),
    }
}

/// The next number of a panel: 1 where none is kept. Where one is, the number of its row is noted.
pub fn next_of<S: Alter>(
    connection: &mut Connection<S>,
    numbers: &mut RowNumbers,
    panel: &Name,
) -> Result<u64, ReadFault>
    ensures answers { Answers (λ kept it. (it ≡ (tables_in kept).next panel.now)
        × (cannot_stand_in kept (NextOf panel.now) ≡ false))
        (λ kept. cannot_stand_in kept (NextOf panel.now) ≡ true)
        (state S.Store connection.old) (state S.Store connection.new) result }
{
    let rows = panels::find(connection, panel)?;
    numbers.note_next(panel, &rows);
    parsed_next(panel, rows)
}

// What the answer of the query on a number says.
fn parsed_command(
    panel: &Name,
    number: u64,
    rows: Vec<Row>,
) -> Result<Option<CommandRow>, ReadFault>
    requires at_least_1 { 1 ≤ number }
    requires greatest { number ≤ LAST_NUMBER }
    ensures value { (kept : Kept)
        → Finds (of_command panel.now number)
        (λ row. column row 3 ∷ column row 4 ∷ column row 5 ∷ column row 6 ∷ column row 7 ∷ column row 8 ∷ []) kept.command
        rows.items
        → IfOk result (λ it. it ≡ (tables_in kept).row panel.now number) }
    ensures bad { (kept : Kept)
        → Finds (of_command panel.now number)
        (λ row. column row 3 ∷ column row 4 ∷ column row 5 ∷ column row 6 ∷ column row 7 ∷ column row 8 ∷ []) kept.command
        rows.items
        → IfErr result (λ _. cannot_stand_in kept (RowOf panel.now number) ≡ true) }
    ensures stood { (kept : Kept)
        → Finds (of_command panel.now number)
        (λ row. column row 3 ∷ column row 4 ∷ column row 5 ∷ column row 6 ∷ column row 7 ∷ column row 8 ∷ []) kept.command
        rows.items
        → IfOk result (λ _. cannot_stand_in kept (RowOf panel.now number) ≡ false) }
    ensures fault { IfErr result (λ fault. fault ≡ BadRow) }
{
    // What is asked for is a name, as a row's own has to be.
    let _name = panel.as_str();
    match only(rows)? {
        None => Ok(None),
        Some(row) => Ok(Some(command_at(&row, 0)?)),
    }
}

/// The row under a number of a panel from 1 to 1,000,000,000,000, if one is kept.
pub fn command_under<S: Alter>(
    connection: &mut Connection<S>,
    panel: &Name,
    number: u64,
) -> Result<Option<CommandRow>, ReadFault>
    requires at_least_1 { 1 ≤ number }
    requires greatest { number ≤ LAST_NUMBER }
    ensures answers { Answers (λ kept it. (it ≡ (tables_in kept).row panel.now number)
        × (cannot_stand_in kept (RowOf panel.now number) ≡ false))
        (λ kept. cannot_stand_in kept (RowOf panel.now number) ≡ true)
        (state S.Store connection.old) (state S.Store connection.new) result }
{
    let rows = commands::find(connection, panel, number)?;
    parsed_command(panel, number, rows)
}

// What the answer of the query on a schedule says.
fn parsed_shown(schedule: &Name, rows: Vec<Row>) -> Result<Option<Option<i64>>, ReadFault>
    ensures value { (kept : Kept) → Finds (of_schedule schedule.now) (λ row. column row 2 ∷ column row 0 ∷ []) kept.shown rows.items
        → IfOk result (λ it. it ≡ (tables_in kept).shown schedule.now) }
    ensures bad { (kept : Kept) → Finds (of_schedule schedule.now) (λ row. column row 2 ∷ column row 0 ∷ []) kept.shown rows.items
        → IfErr result (λ _. cannot_stand_in kept (ShownBy schedule.now) ≡ true) }
    ensures stood { (kept : Kept) → Finds (of_schedule schedule.now) (λ row. column row 2 ∷ column row 0 ∷ []) kept.shown rows.items
        → IfOk result (λ _. cannot_stand_in kept (ShownBy schedule.now) ≡ false) }
    ensures fault { IfErr result (λ fault. fault ≡ BadRow) }
{
    // What is asked for is a name, as a row's own has to be.
    let _name = schedule.as_str();
    match only(rows)? {
        None => Ok(None),
        Some(row) => Ok(Some(optional_at(&row, 0)?)),
    }
}

/// What a schedule shows: a value or NULL, or nothing where it is quiet. Where it shows something, the number of its row
/// is noted.
pub fn shown_by<S: Alter>(
    connection: &mut Connection<S>,
    numbers: &mut RowNumbers,
    schedule: &Name,
) -> Result<Option<Option<i64>>, ReadFault>
    ensures answers { Answers (λ kept it. (it ≡ (tables_in kept).shown schedule.now)
        × (cannot_stand_in kept (ShownBy schedule.now) ≡ false))
        (λ kept. cannot_stand_in kept (ShownBy schedule.now) ≡ true)
        (state S.Store connection.old) (state S.Store connection.new) result }
{
    let rows = schedules::find(connection, schedule)?;
    numbers.note_shown(schedule, &rows);
    parsed_shown(schedule, rows)
}

// What the answer of the query on `desk` says.
fn parsed_last(rows: Vec<Row>) -> Result<Option<i64>, ReadFault>
    ensures value { (kept : Kept) → Finds (λ row. true) (λ row. column row 2 ∷ column row 3 ∷ []) kept.desk rows.items
        → IfOk result (λ it. it ≡ (tables_in kept).last_tick) }
    ensures bad { (kept : Kept) → Finds (λ row. true) (λ row. column row 2 ∷ column row 3 ∷ []) kept.desk rows.items
        → IfErr result (λ _. cannot_stand_in kept LastTick ≡ true) }
    ensures stood { (kept : Kept) → Finds (λ row. true) (λ row. column row 2 ∷ column row 3 ∷ []) kept.desk rows.items
        → IfOk result (λ _. cannot_stand_in kept LastTick ≡ false) }
    ensures fault { IfErr result (λ fault. fault ≡ BadRow) }
{
    match only(rows)? {
        None => Err(ReadFault::BadRow),
        Some(row) => optional_at(&row, 1),
    }
}

/// The moment of the last tick, if there was one.
pub fn last_tick<S: Alter>(connection: &mut Connection<S>) -> Result<Option<i64>, ReadFault>
    ensures answers { Answers (λ kept it. (it ≡ (tables_in kept).last_tick) × (cannot_stand_in kept LastTick ≡ false))
        (λ kept. cannot_stand_in kept LastTick ≡ true) (state S.Store connection.old) (state S.Store connection.new) result }
{
    let rows = desk_row::find(connection)?;
    parsed_last(rows)
}
