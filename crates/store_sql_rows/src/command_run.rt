//! The rows of a panel's run, read one at a time.
ghost use Rattle.std.specs.Prelude.{◌≡◌, ◌≤◌, ◌<◌, ◌^◌, ◌&&◌, [], ◌∷◌, IfOk};
ghost use Rattle.sqlite.specs.Held.{state};
ghost use Rattle.sqlite.specs.Listing.{understood};
ghost use Rattle.sqlite.specs.State.{HasCleanDisk};
ghost use Rattle.sqlite.specs.Values.{bound};
ghost use Rattle.sqlite_schema.specs.declared.command.Command.{Command};
ghost use Rattle.sqlite_value.specs.Order.{column};
ghost use Rattle.store_sql_rows.specs.Schema.{desk_schema};
ghost use Rattle.store_sql_rows.specs.Failing.{IsSure};
ghost use Rattle.store_sql_rows.specs.Cells.{is_text};
ghost use Rattle.store_sql_rows.specs.Looking.{FindsRun, IsCommand, IsReadRun, Leaves, Reads, is_from, number_shown};
ghost use Rattle.store_sql_rows.specs.Ours.{IsOurs};

use crate::cells::cell_at;
use crate::parameters::{count, text};
use points::Name;
use sqlite::types::ValueRef;
use sqlite::{Alter, Connection, Error, ErrorCode, Row};
use std::alloc::Global;

// The number that a row shows first, or 0.
fn number_shown(row: &Row) -> u64
    ensures { result ≡ number_shown row.now }
{
    match cell_at(row, 0) {
        ValueRef::Int(number) => u64::try_from(number).unwrap_or(0),
        _ => 0,
    }
}

// The rows of an answer on the six tables that are numbered from `from` on, read one at a time, as far as a run up to
// `upto` goes.
fn read_run<S: Alter>(
    alloc: Global,
    connection: &mut Connection<S>,
    sql: &str,
    params: &[ValueRef<'_>],
    from: u64,
    upto: u64,
) -> Result<Vec<Row>, Error>
    requires sure { IsSure sql.now (bound params.now) }
    requires at_least_1 { 1 ≤ from }
    ensures read { HasCleanDisk (state S.Store connection.new) → IsOurs (state S.Store connection.old).now
        → (command : Command) → IsCommand (understood desk_schema sql.now) command
        → IfOk result (λ run. IsReadRun command (state S.Store connection.old).now (bound params.now) from upto run.items) }
    ensures leaves { Leaves (state S.Store connection.old) (state S.Store connection.new) result }
{
    let mut run = Vec::new(alloc);
    let mut last = from - 1;
    let mut rows = connection.query(sql, params)?;
    'rows: for _ in 0..u64::MAX {
        let Some(row) = rows.next()? else {
            return Ok(run);
        };
        let number = number_shown(row);
        if upto < number && last < number - 1 {
            return Ok(run);
        }
        run.push(row.copy()?)?;
        last = number;
    }
    // So many rows have no room in memory.
    Err(Error::SqliteFailure(ErrorCode::OutOfMemory))
}

/// The rows of a panel from a number on, by rising number, as far as a run up to `upto` goes: of each the number, and
/// after it the cells that `commands::find` shows. They are read one at a time, and none behind the first gap at `upto`
/// or past it.
pub fn run_from<S: Alter>(
    alloc: Global,
    connection: &mut Connection<S>,
    panel: &Name,
    from: u64,
    upto: u64,
) -> Result<Vec<Row>, Error>
    requires at_least_1 { 1 ≤ from }
    requires fits { from < 2 ^ 63 }
    ensures reads { Reads (λ kept rows. FindsRun (λ row. is_text panel.now (column row 1) && is_from from (column row 2))
        (λ row. column row 2 ∷ column row 3 ∷ column row 4 ∷ column row 5 ∷ column row 6 ∷ column row 7 ∷ column row 8 ∷ [])
        from upto kept.command rows.items)
        (state S.Store connection.old) (state S.Store connection.new) result }
{
    read_run(
        alloc,
        connection,
        "SELECT number, point, priority, value, state, a, b FROM command WHERE panel = ?1 AND number >= ?2 ORDER BY number",
        &[text(panel), count(from)],
        from,
        upto,
    )
}
