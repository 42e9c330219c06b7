//! A panel's rows, by rising number.
ghost use Rattle.std.specs.Prelude.{◌≡◌, ◌≤◌, ◌<◌, ◌&&◌, false, true, Err, IfErr, IfOk, IfSome, List, ℕ, Some, IsSome, IsTrue, [], ◌∷◌};
ghost use Rattle.std.specs.Result.{result_err};
ghost use Rattle.points.specs.declared.numbered_row.TheConstants.{LAST_NUMBER};
ghost use Rattle.points.specs.Run.{IsRun};
ghost use Rattle.sqlite.specs.Held.{state};
ghost use Rattle.sqlite.specs.State.{HasCleanDisk, Survives};
ghost use Rattle.sqlite_value.specs.Order.{column};
ghost use Rattle.store_sql_rows.specs.Broken.{cannot_stand_in};
ghost use Rattle.store_sql_rows.specs.Looking.{FindsLeast, FindsRun, is_from};
ghost use Rattle.store_sql_rows.specs.Ours.{IsOurs, kept_in};
ghost use Rattle.store_sql.specs.Leaving.{Answers, is_sql, out_of_memory};
ghost use Rattle.store_sql_rows.specs.Cells.{is_text};
ghost use Rattle.store_sql_rows.specs.declared.read_fault.ReadFault.TheVariants.{BadRow};
ghost use Rattle.store_sql_rows.specs.Stored.{Kept, tables_in};
ghost use Rattle.store.specs.Asked.{IsBrokenRow, IsBrokenRun, IsSomeBroken};
ghost use Rattle.store.specs.Asked.Asked.{RowOf};
ghost use Rattle.store.specs.Change.{IsNumber};
ghost use Rattle.store_sql.specs.Naming.{Tells};
ghost use Rattle.store_sql.specs.Numbered.{HasNumbers, IsListed};
ghost use Rattle.store_sql.specs.Stepping.{IsNextNumber, IsNoRow};

use crate::finding::command_under;
use crate::numbered::{Numbered, by_number, run_in};
use points::{CommandRow, LAST_NUMBER, Name, NumberedRow};
use sqlite::{Alter, Connection, Row};
use std::alloc::Global;
use store_sql_rows::{ReadFault, commands, count_at, run_from};

const LEAST_NUMBER: u64 = 1;

/// The row under a number of a panel, if one is kept. Out of 1 to 1,000,000,000,000 none is.
pub fn command_of<S: Alter>(
    connection: &mut Connection<S>,
    panel: &Name,
    number: u64,
) -> Result<Option<CommandRow>, ReadFault>
    ensures answers { Answers (λ kept it. (it ≡ (tables_in kept).row panel.now number)
        × (IsBrokenRow (cannot_stand_in kept) panel.now number → ⊥))
        (λ kept. IsBrokenRow (cannot_stand_in kept) panel.now number)
        (state S.Store connection.old) (state S.Store connection.new) result }
{
    if LEAST_NUMBER <= number && number <= LAST_NUMBER {
        command_under(connection, panel, number)
    } else {
        Ok(None)
    }
}

// What the answer of the query on the least number says. Past the greatest there is no row of a command.
fn parsed_number(panel: &Name, from: u64, rows: Vec<Row>) -> Option<u64>
    requires { 1 ≤ from }
    ensures is { IfSome result IsNumber }
    ensures value { (kept : Kept)
        → FindsLeast (λ row. is_text panel.now (column row 1) && is_from from (column row 2)) 2 kept.command rows.items
        → IsNextNumber kept panel.now from result }
{
    // What is asked for is a name, as a row's own has to be.
    let _name = panel.as_str();
    match rows.first() {
        None => None,
        Some(row) => count_at(row, 0, LEAST_NUMBER, LAST_NUMBER).ok(),
    }
}

// A number, or 1 where it is below.
fn at_least_1(number: u64) -> u64
    ensures least { 1 ≤ result }
    ensures up { number ≤ result }
    ensures near { (n : ℕ) → number ≤ n → 1 ≤ n → result ≤ n }
{
    if number < LEAST_NUMBER {
        LEAST_NUMBER
    } else {
        number
    }
}

// The least number of a panel from one on, if there is one.
fn next_number<S: Alter>(
    connection: &mut Connection<S>,
    panel: &Name,
    from: u64,
) -> Result<Option<u64>, ReadFault>
    requires { from ≤ LAST_NUMBER }
    ensures is { IfOk result (λ it. IfSome it IsNumber) }
    ensures fault { IfErr result (λ fault. IsTrue (is_sql (Some fault))) }
    ensures answers { Answers (λ kept. IsNextNumber kept panel.now from)
        (λ _. ⊥) (state S.Store connection.old) (state S.Store connection.new) result }
{
    let least = at_least_1(from);
    let rows = commands::next_number(connection, panel, least)?;
    Ok(parsed_number(panel, least, rows))
}

// The row under a number of a panel where something is kept.
fn row_under<S: Alter>(
    connection: &mut Connection<S>,
    panel: &Name,
    number: u64,
) -> Result<NumberedRow, ReadFault>
    requires { IsNumber number }
    ensures number { IfOk result (λ found. found.number ≡ number) }
    ensures answers { Answers (λ kept found. ((tables_in kept).row panel.now number ≡ Some found.row)
        × (IsBrokenRow (cannot_stand_in kept) panel.now number → ⊥))
        (λ kept. (IsNoRow kept panel.now number → ⊥) → IsBrokenRow (cannot_stand_in kept) panel.now number)
        (state S.Store connection.old) (state S.Store connection.new) result }
{
    match command_under(connection, panel, number)? {
        Some(row) => Ok(NumberedRow { number, row }),
        None => Err(ReadFault::BadRow),
    }
}

/// Whether a panel has a row.
pub fn has_row<S: Alter>(connection: &mut Connection<S>, panel: &Name) -> Result<bool, ReadFault>
    ensures answers { Answers (λ kept. Tells ((number : ℕ) × IsSome ((tables_in kept).row panel.now number)))
        (λ kept. IsSomeBroken (cannot_stand_in kept)) (state S.Store connection.old) (state S.Store connection.new) result }
{
    match next_number(connection, panel, LEAST_NUMBER)? {
        None => Ok(false),
        Some(number) => {
            let _row = row_under(connection, panel, number)?;
            Ok(true)
        }
    }
}

// What the rows of a run say.
fn parsed_run(
    alloc: Global,
    panel: &Name,
    from: u64,
    upto: u64,
    rows: Vec<Row>,
) -> Result<Numbered, ReadFault>
    ensures numbers { IfOk result HasNumbers }
    ensures listed { (kept : Kept)
        → FindsRun (λ row. is_text panel.now (column row 1) && is_from from (column row 2))
        (λ row. column row 2 ∷ column row 3 ∷ column row 4 ∷ column row 5 ∷ column row 6 ∷ column row 7 ∷ column row 8 ∷ [])
        from upto kept.command rows.items
        → IfOk result (λ numbered. (gap : ℕ) × IsListed kept panel.now from upto gap numbered) }
    ensures fault { IfErr result (λ fault. fault ≡ out_of_memory) }
{
    // What is asked for is a name, as a row's own has to be.
    let _name = panel.as_str();
    by_number(alloc, &rows)
}

// The rows of a panel's run by their numbers.
fn numbered_run<S: Alter>(
    alloc: Global,
    connection: &mut Connection<S>,
    panel: &Name,
    from: u64,
    upto: u64,
) -> Result<Numbered, ReadFault>
    requires at_least_1 { 1 ≤ from }
    requires greatest { from ≤ LAST_NUMBER }
    ensures numbers { IfOk result HasNumbers }
    ensures fault { IfErr result (λ fault. IsTrue (is_sql (Some fault))) }
    ensures answers { Answers (λ kept numbered. (gap : ℕ) × IsListed kept panel.now from upto gap numbered)
        (λ _. ⊥) (state S.Store connection.old) (state S.Store connection.new) result }
{
    let rows = run_from(alloc, connection, panel, from, upto)?;
    parsed_run(alloc, panel, from, upto, rows)
}

/// The rows of a panel at the numbers from `from` up to and without `upto`, then those from `upto` on that
/// follow without gap, by rising number.
pub fn commands_run<S: Alter>(
    alloc: Global,
    connection: &mut Connection<S>,
    panel: &Name,
    from: u64,
    upto: u64,
) -> Result<Vec<NumberedRow>, ReadFault>
    requires { from ≤ upto }
    ensures answers { Answers (λ kept it. IsRun ((tables_in kept).row panel.now) from upto it.items
        × (IsBrokenRun (cannot_stand_in kept) ((tables_in kept).row panel.now) panel.now from upto → ⊥))
        (λ kept. IsBrokenRun (cannot_stand_in kept) ((tables_in kept).row panel.now) panel.now from upto)
        (state S.Store connection.old) (state S.Store connection.new) result }
{
    // Past the greatest number no row can stand.
    if LAST_NUMBER < from {
        return Ok(Vec::new(alloc));
    }
    let numbered = numbered_run(alloc, connection, panel, at_least_1(from), upto)?;
    run_in(alloc, &numbered, from, upto)
}
