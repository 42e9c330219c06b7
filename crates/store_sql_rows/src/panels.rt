//! The statements on the next numbers of panels.
ghost use Rattle.std.specs.Prelude.{◌<◌, ◌^◌, pos, [], ◌∷◌};
ghost use Rattle.sqlite.specs.Held.{state};
ghost use Rattle.sqlite_value.specs.declared.value.Value.TheVariants.{Int, Text};
ghost use Rattle.sqlite_value.specs.Order.{column};
ghost use Rattle.store_sql_rows.specs.Looking.{Finds, FindsLeast, Reads, is_from_text};
ghost use Rattle.store_sql_rows.specs.Ours.{Adds, Changes, Rewrites, RewritesAt};
ghost use Rattle.store_sql_rows.specs.Slot.{On, panel_slot};
ghost use Rattle.store_sql_rows.specs.Steps.{Moves, MovesBy, StaysIfTaken};
ghost use Rattle.store_sql_rows.specs.Rows.{of_panel};

use crate::looking::ask;
use crate::parameters::{count, text, whole, words};
use crate::running::run;
use points::Name;
use sqlite::{Alter, Connection, Error, Row, Transaction};

/// Adds the next number of a panel. Where it has one it is refused as not unique, and nothing changes.
pub fn add<S: Alter>(
    transaction: &mut Transaction<'_, S>,
    panel: &Name,
    next: u64,
) -> Result<usize, Error>
    requires { next < 2 ^ 63 }
    ensures refused { StaysIfTaken (state S.Store transaction.old.conn.now) (state S.Store transaction.new.conn.now) result }
    ensures moves { Moves S.Store (Changes (On panel_slot (Adds (of_panel panel.now) (Text panel.now ∷ Int (pos next) ∷ []))))
        transaction.old.conn transaction.new.conn result }
{
    run(
        transaction,
        "INSERT INTO panel (name, next) VALUES (?1, ?2)",
        &[text(panel), count(next)],
    )
}

/// Sets the next number of a panel that has one, and answers how many rows that were: none, or the one that it has.
pub fn set<S: Alter>(
    transaction: &mut Transaction<'_, S>,
    panel: &Name,
    next: u64,
) -> Result<usize, Error>
    requires { next < 2 ^ 63 }
    ensures moves { MovesBy S.Store (λ count. Changes (On panel_slot (Rewrites (of_panel panel.now) (Text panel.now ∷ Int (pos next) ∷ []) count)))
        transaction.old.conn transaction.new.conn result }
{
    run(
        transaction,
        "UPDATE panel SET next = ?2 WHERE name = ?1",
        &[text(panel), count(next)],
    )
}

/// Sets the next number of a panel whose row has this number, and answers how many rows that were: none, or that one.
pub fn set_at<S: Alter>(
    transaction: &mut Transaction<'_, S>,
    row: i64,
    panel: &Name,
    next: u64,
) -> Result<usize, Error>
    requires { next < 2 ^ 63 }
    ensures moves { MovesBy S.Store (λ count. Changes (On panel_slot (RewritesAt row (of_panel panel.now) (Text panel.now ∷ Int (pos next) ∷ []) count)))
        transaction.old.conn transaction.new.conn result }
{
    run(
        transaction,
        "UPDATE panel SET next = ?2 WHERE rowid = ?3 AND name = ?1",
        &[text(panel), count(next), whole(row)],
    )
}

// ---- what is read

/// The cell `next` of a panel, and the number of its row.
pub fn find<S: Alter>(connection: &mut Connection<S>, panel: &Name) -> Result<Vec<Row>, Error>
    ensures reads { Reads (λ kept rows. Finds (of_panel panel.now) (λ row. column row 2 ∷ column row 0 ∷ []) kept.panel rows.items)
        (state S.Store connection.old) (state S.Store connection.new) result }
{
    ask(
        connection,
        "SELECT next, rowid FROM panel WHERE name = ?1",
        &[text(panel)],
    )
}

/// The least name from a text on, if there is one.
pub fn next_name<S: Alter>(connection: &mut Connection<S>, from: &str) -> Result<Vec<Row>, Error>
    ensures reads { Reads (λ kept rows. FindsLeast (λ row. is_from_text from.now (column row 1)) 1 kept.panel rows.items)
        (state S.Store connection.old) (state S.Store connection.new) result }
{
    ask(
        connection,
        "SELECT name FROM panel WHERE name >= ?1 ORDER BY name LIMIT 1",
        &[words(from)],
    )
}
