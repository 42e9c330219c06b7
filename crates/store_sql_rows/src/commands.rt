//! The statements on the rows of commands.
ghost use Rattle.std.specs.Prelude.{◌<◌, ◌^◌, ◌&&◌, pos, [], ◌∷◌};
ghost use Rattle.sqlite.specs.Held.{state};
ghost use Rattle.sqlite_value.specs.declared.value.Value.TheVariants.{Int, Text};
ghost use Rattle.sqlite_value.specs.Order.{column};
ghost use Rattle.store_sql_rows.specs.Looking.{Finds, FindsLeast, Reads, is_from, is_from_text};
ghost use Rattle.store_sql_rows.specs.Ours.{Adds, Changes, Exchanges, Loses};
ghost use Rattle.store_sql_rows.specs.Slot.{On, command_slot};
ghost use Rattle.store_sql_rows.specs.Steps.{FailsInside, Moves, MovesBy, StaysIfTaken};
ghost use Rattle.store_sql_rows.specs.Cells.{cell_of, is_text};
ghost use Rattle.store_sql_rows.specs.Rows.{of_command, of_lower_command};

use crate::command_cells::StateCells;
use crate::looking::ask;
use crate::parameters::{count, optional, text, whole, words};
use crate::running::run;
use points::{Content, Name};
use sqlite::{Alter, Connection, Error, Row, Transaction};

/// Removes the row under a number of a panel.
pub fn clear<S: Alter>(
    transaction: &mut Transaction<'_, S>,
    panel: &Name,
    number: u64,
) -> Result<usize, Error>
    requires { number < 2 ^ 63 }
    ensures moves { Moves S.Store (Changes (On command_slot (Loses (of_command panel.now number))))
        transaction.old.conn transaction.new.conn result }
{
    run(
        transaction,
        "DELETE FROM command WHERE panel = ?1 AND number = ?2",
        &[text(panel), count(number)],
    )
}

/// Adds the row under a number of a panel. Where one stands there it is refused as not unique, and nothing changes.
pub fn add<S: Alter>(
    transaction: &mut Transaction<'_, S>,
    panel: &Name,
    number: u64,
    content: &Content,
    cells: &StateCells,
) -> Result<usize, Error>
    requires { number < 2 ^ 63 }
    ensures refused { StaysIfTaken (state S.Store transaction.old.conn.now) (state S.Store transaction.new.conn.now) result }
    ensures moves { Moves S.Store (Changes (On command_slot (Adds (of_command panel.now number)
        (Text panel.now ∷ Int (pos number) ∷ Text content.now.point ∷ Int content.now.priority ∷ cell_of content.now.value
        ∷ Int cells.now.code ∷ cell_of cells.now.a ∷ cell_of cells.now.b ∷ [])))) transaction.old.conn transaction.new.conn result }
{
    run(
        transaction,
        "INSERT INTO command (panel, number, point, priority, value, state, a, b) VALUES (?1, ?2, ?3, ?4, ?5, ?6, ?7, ?8)",
        &[
            text(panel),
            count(number),
            text(&content.point),
            whole(content.priority),
            optional(content.value),
            whole(cells.code),
            optional(cells.a),
            optional(cells.b),
        ],
    )
}

/// Makes of the row below a number of a panel the row under another number, and answers how many rows that were: none,
/// or one. Where there are more, or a row stands under that number, it is refused as not unique, and nothing changes.
pub fn exchange<S: Alter>(
    transaction: &mut Transaction<'_, S>,
    panel: &Name,
    below: u64,
    number: u64,
    content: &Content,
    cells: &StateCells,
) -> Result<usize, Error>
    requires below { below < 2 ^ 63 }
    requires number { number < 2 ^ 63 }
    ensures refused { StaysIfTaken (state S.Store transaction.old.conn.now) (state S.Store transaction.new.conn.now) result }
    ensures moves { MovesBy S.Store (λ count. Changes (On command_slot
        (Exchanges (of_lower_command panel.now below) (of_command panel.now number)
        (Text panel.now ∷ Int (pos number) ∷ Text content.now.point ∷ Int content.now.priority ∷ cell_of content.now.value
        ∷ Int cells.now.code ∷ cell_of cells.now.a ∷ cell_of cells.now.b ∷ []) count))) transaction.old.conn transaction.new.conn result }
{
    run(
        transaction,
        "UPDATE command SET number = ?2, point = ?3, priority = ?4, value = ?5, state = ?6, a = ?7, b = ?8 WHERE panel = ?1 AND number < ?9",
        &[
            text(panel),
            count(number),
            text(&content.point),
            whole(content.priority),
            optional(content.value),
            whole(cells.code),
            optional(cells.a),
            optional(cells.b),
            count(below),
        ],
    )
}

/// Removes the rows below a number of a panel.
pub fn drop_below<S: Alter>(
    transaction: &mut Transaction<'_, S>,
    panel: &Name,
    number: u64,
) -> Result<usize, Error>
    requires { number < 2 ^ 63 }
    ensures moves { Moves S.Store (Changes (On command_slot (Loses (of_lower_command panel.now number))))
        transaction.old.conn transaction.new.conn result }
    ensures cause { FailsInside S.Store transaction.old.conn transaction.new.conn result }
{
    run(
        transaction,
        "DELETE FROM command WHERE panel = ?1 AND number < ?2",
        &[text(panel), count(number)],
    )
}

// ---- what is read

/// The cells of the row under a number of a panel, from `point` on.
pub fn find<S: Alter>(
    connection: &mut Connection<S>,
    panel: &Name,
    number: u64,
) -> Result<Vec<Row>, Error>
    requires { number < 2 ^ 63 }
    ensures reads { Reads (λ kept rows. Finds (of_command panel.now number)
        (λ row. column row 3 ∷ column row 4 ∷ column row 5 ∷ column row 6 ∷ column row 7 ∷ column row 8 ∷ [])
        kept.command rows.items)
        (state S.Store connection.old) (state S.Store connection.new) result }
{
    ask(
        connection,
        "SELECT point, priority, value, state, a, b FROM command WHERE panel = ?1 AND number = ?2",
        &[text(panel), count(number)],
    )
}

/// The numbers of a panel's rows below one.
pub fn below<S: Alter>(
    connection: &mut Connection<S>,
    panel: &Name,
    number: u64,
) -> Result<Vec<Row>, Error>
    requires { number < 2 ^ 63 }
    ensures reads { Reads (λ kept rows. Finds (of_lower_command panel.now number) (λ row. column row 2 ∷ []) kept.command rows.items)
        (state S.Store connection.old) (state S.Store connection.new) result }
{
    ask(
        connection,
        "SELECT number FROM command WHERE panel = ?1 AND number < ?2",
        &[text(panel), count(number)],
    )
}

/// The least name of a panel from a text on, if there is one.
pub fn next_panel<S: Alter>(connection: &mut Connection<S>, from: &str) -> Result<Vec<Row>, Error>
    ensures reads { Reads (λ kept rows. FindsLeast (λ row. is_from_text from.now (column row 1)) 1 kept.command rows.items)
        (state S.Store connection.old) (state S.Store connection.new) result }
{
    ask(
        connection,
        "SELECT panel FROM command WHERE panel >= ?1 ORDER BY panel LIMIT 1",
        &[words(from)],
    )
}

/// The least number of a panel from one on, if there is one.
pub fn next_number<S: Alter>(
    connection: &mut Connection<S>,
    panel: &Name,
    from: u64,
) -> Result<Vec<Row>, Error>
    requires { from < 2 ^ 63 }
    ensures reads { Reads (λ kept rows. FindsLeast
        (λ row. is_text panel.now (column row 1) && is_from from (column row 2)) 2 kept.command rows.items)
        (state S.Store connection.old) (state S.Store connection.new) result }
{
    ask(
        connection,
        "SELECT number FROM command WHERE panel = ?1 AND number >= ?2 ORDER BY number LIMIT 1",
        &[text(panel), count(from)],
    )
}
