//! The rows that the tables of the first version keep and those of the second do not.
ghost use Rattle.std.specs.Prelude.{◌≡◌, ◌++◌, false, IfErr, OnOk, [], ◌∷◌, map};
ghost use Rattle.sqlite.specs.Held.{state};
ghost use Rattle.store_sql.specs.Leaving.{Answers, out_of_memory};
ghost use Rattle.store_sql_rows.specs.Stored.{is_sound_in, tables_in};
ghost use Rattle.store_sql.specs.Opening.{IsReadToDrop, early_rows};

use crate::finding::next_of;
use crate::names::names_of;
use points::Name;
use sqlite::{Alter, Connection, Error, ErrorCode};
use std::alloc::Global;
use store::RowsBelow;
use store_sql_rows::{ReadFault, RowNumbers};

// How many numbers below a panel's next one keep their rows.
const KEPT: u64 = 1_000;

// Puts an item at the end of a list.
fn push(list: &mut Vec<RowsBelow>, item: RowsBelow) -> Result<(), ReadFault>
    ensures items { OnOk result (list.new.items ≡ list.old.items ++ item ∷ []) }
    ensures fault { IfErr result (λ fault. fault ≡ out_of_memory) }
{
    match list.push(item) {
        Ok(()) => Ok(()),
        Err(_) => Err(ReadFault::Sql(Error::SqliteFailure(ErrorCode::OutOfMemory))),
    }
}

// The early rows of each panel of a list.
fn early_of<S: Alter>(
    alloc: Global,
    connection: &mut Connection<S>,
    numbers: &mut RowNumbers,
    panels: &[Name],
) -> Result<Vec<RowsBelow>, ReadFault>
    ensures answers { Answers (λ kept it. it.items ≡ map (early_rows (tables_in kept).next) panels.now)
        (λ kept. is_sound_in kept ≡ false) (state S.Store connection.old) (state S.Store connection.new) result }
{
    let mut dropped = Vec::new(alloc);
    for panel in panels {
        let number = next_of(connection, numbers, panel)?.saturating_sub(KEPT);
        push(
            &mut dropped,
            RowsBelow {
                panel: *panel,
                number,
            },
        )?;
    }
    Ok(dropped)
}

/// The early rows of each panel. Each name in the tables has to be one, and each next number one that can stand.
pub fn rows_to_drop<S: Alter>(
    alloc: Global,
    connection: &mut Connection<S>,
) -> Result<Vec<RowsBelow>, ReadFault>
    ensures answers { Answers (λ kept it. IsReadToDrop kept it.items)
        (λ kept. is_sound_in kept ≡ false) (state S.Store connection.old) (state S.Store connection.new) result }
{
    let mut numbers = RowNumbers::new(alloc);
    let names = names_of(alloc, connection, &mut numbers)?;
    early_of(alloc, connection, &mut numbers, &names.panels)
}
