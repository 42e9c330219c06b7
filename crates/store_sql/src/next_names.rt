//! The next name of each table from a text on.
ghost use Rattle.std.specs.Prelude.{◌≡◌, List, false, true, Err, IfErr, IfOk};
ghost use Rattle.std.specs.Result.{result_err};
ghost use Rattle.sqlite.specs.Held.{state};
ghost use Rattle.sqlite.specs.State.{HasCleanDisk, Survives};
ghost use Rattle.sqlite_value.specs.Order.{Row as Cells, column};
ghost use Rattle.store_sql_rows.specs.Broken.{cannot_stand_in};
ghost use Rattle.store.specs.Asked.Asked.{AnyName};
ghost use Rattle.store_sql_rows.specs.Looking.{FindsLeast, is_from_text};
ghost use Rattle.store_sql_rows.specs.Ours.{IsOurs, kept_in};
ghost use Rattle.store_sql.specs.Leaving.{Answers};
ghost use Rattle.store_sql_rows.specs.declared.read_fault.ReadFault.TheVariants.{BadRow};
ghost use Rattle.store_sql.specs.Naming.{HasName, HasNoName};
ghost use Rattle.store_sql.specs.Texts.{IsNextText};

use points::Name;
use sqlite::{Alter, Connection, Row};
use store_sql_rows::{ReadFault, calendars, commands, name_at, panels, places, schedules};

// What the answer of a query on the least name says.
fn parsed_name(from: &str, rows: Vec<Row>) -> Result<Option<Name>, ReadFault>
    ensures value { (table : List Cells) → FindsLeast (λ row. is_from_text from.now (column row 1)) 1 table rows.items
        → IfOk result (IsNextText (HasName table) from.now) }
    ensures bad { (table : List Cells) → FindsLeast (λ row. is_from_text from.now (column row 1)) 1 table rows.items
        → IfErr result (λ _. HasNoName table) }
    ensures fault { IfErr result (λ fault. fault ≡ BadRow) }
{
    match rows.first() {
        None => Ok(None),
        Some(row) => Ok(Some(name_at(row, 0)?)),
    }
}

/// The next name of a panel that has a next number from a text on, if there is one.
pub fn next_numbered_panel<S: Alter>(
    connection: &mut Connection<S>,
    from: &str,
) -> Result<Option<Name>, ReadFault>
    ensures answers { Answers (λ kept. IsNextText (HasName kept.panel) from.now)
        (λ kept. cannot_stand_in kept AnyName ≡ true) (state S.Store connection.old) (state S.Store connection.new) result }
{
    let rows = panels::next_name(connection, from)?;
    parsed_name(from, rows)
}

/// The next name of a panel that has a row from a text on, if there is one.
pub fn next_commanding_panel<S: Alter>(
    connection: &mut Connection<S>,
    from: &str,
) -> Result<Option<Name>, ReadFault>
    ensures answers { Answers (λ kept. IsNextText (HasName kept.command) from.now)
        (λ kept. cannot_stand_in kept AnyName ≡ true) (state S.Store connection.old) (state S.Store connection.new) result }
{
    let rows = commands::next_panel(connection, from)?;
    parsed_name(from, rows)
}

/// The next name of a point that has a place from a text on, if there is one.
pub fn next_point<S: Alter>(
    connection: &mut Connection<S>,
    from: &str,
) -> Result<Option<Name>, ReadFault>
    ensures answers { Answers (λ kept. IsNextText (HasName kept.place) from.now)
        (λ kept. cannot_stand_in kept AnyName ≡ true) (state S.Store connection.old) (state S.Store connection.new) result }
{
    let rows = places::next_point(connection, from)?;
    parsed_name(from, rows)
}

/// The next name of a schedule that shows something from a text on, if there is one.
pub fn next_schedule<S: Alter>(
    connection: &mut Connection<S>,
    from: &str,
) -> Result<Option<Name>, ReadFault>
    ensures answers { Answers (λ kept. IsNextText (HasName kept.shown) from.now)
        (λ kept. cannot_stand_in kept AnyName ≡ true) (state S.Store connection.old) (state S.Store connection.new) result }
{
    let rows = schedules::next_name(connection, from)?;
    parsed_name(from, rows)
}

/// The next name of a calendar that has an entry from a text on, if there is one.
pub fn next_calendar<S: Alter>(
    connection: &mut Connection<S>,
    from: &str,
) -> Result<Option<Name>, ReadFault>
    ensures answers { Answers (λ kept. IsNextText (HasName kept.imported) from.now)
        (λ kept. cannot_stand_in kept AnyName ≡ true) (state S.Store connection.old) (state S.Store connection.new) result }
{
    let rows = calendars::next_name(connection, from)?;
    parsed_name(from, rows)
}
