//! The next numbers and the rows of panels.
ghost use Rattle.std.specs.Prelude.{◌≡◌, ℕ, ◌==◌, ◌&&◌, not, if◌then◌else◌, None, IfOk, OnOk};
ghost use Rattle.std.specs.Result.{result_err};
ghost use Rattle.std.specs.Str.{bytes_eq};
ghost use Rattle.desk_adopt.specs.Adopted.{no_next, no_rows};
ghost use Rattle.desk_adopt.specs.Renamed.{at_items, former};
ghost use Rattle.points.specs.declared.panel.Panel.{Panel as a_panel};
ghost use Rattle.store.specs.Change.{with_each, with_next, with_row};
ghost use Rattle.store.specs.Standing.{IsOpen, Reads};
ghost use Rattle.points.specs.Texts.{Text};
ghost use Rattle.store_copy.specs.Named.{or_else};
ghost use Rattle.store_copy.specs.Remembered.{remembered_row};

use crate::renaming::{Renaming, former_name};
use points::{Name, Panel};
use std::alloc::{AllocError, Global};
use store::{KeptRow, NextNumber, Store, StoreFault};
use store_copy::put_rows;

/// The next number that a panel of the building has in the tables: 1 where nothing is kept of it.
fn former_next<S: Store>(
    store: &mut S,
    renamings: &[Renaming],
    panel: &Name,
) -> Result<u64, StoreFault>
    requires open { IsOpen (S.standing store.old) }
    ensures reads { Reads (result_err result) (S.standing store.old) (S.standing store.new) }
    ensures value { (S.standing store.new).is_honest → IfOk result (λ next.
        next ≡ former renamings.now (S.standing store.old).content.tables.next 1 panel.now) }
{
    match former_name(renamings, panel) {
        Some(former) => store.panel_next(&former),
        None => Ok(1),
    }
}

/// Puts a panel's next number last, unless it is that of a panel of which nothing is kept.
fn keep_next(nexts: &mut Vec<NextNumber>, panel: &Name, next: u64) -> Result<(), AllocError>
    ensures { OnOk result ((q : Text) → with_each with_next nexts.new.items no_next q
        ≡ (if bytes_eq panel.now q && not (next == 1) then next else with_each with_next nexts.old.items no_next q)) }
{
    if next != 1 {
        nexts.push(NextNumber {
            panel: *panel,
            next,
        })?;
    }
    Ok(())
}

/// The next numbers of the building's panels.
pub fn adopted_nexts<S: Store>(
    alloc: Global,
    store: &mut S,
    renamings: &[Renaming],
    panels: &[Panel],
) -> Result<Vec<NextNumber>, StoreFault>
    requires open { IsOpen (S.standing store.old) }
    ensures reads { Reads (result_err result) (S.standing store.old) (S.standing store.new) }
    ensures kept { (S.standing store.new).is_honest → IfOk result (λ nexts. (q : Text) → with_each with_next nexts.items no_next q
        ≡ at_items (λ (it : a_panel). it.name) panels.now (former renamings.now (S.standing store.old).content.tables.next 1) 1 q) }
{
    let mut nexts = Vec::new(alloc);
    for panel in panels {
        let next = former_next(store, renamings, &panel.name)?;
        keep_next(&mut nexts, &panel.name, next)?;
    }
    Ok(nexts)
}

/// Puts the rows last that a panel of the building has in the tables, if any.
fn adopt_panel<S: Store>(
    store: &mut S,
    rows: &mut Vec<KeptRow>,
    renamings: &[Renaming],
    panel: &Name,
) -> Result<(), StoreFault>
    requires open { IsOpen (S.standing store.old) }
    ensures reads { Reads (result_err result) (S.standing store.old) (S.standing store.new) }
    ensures kept { (S.standing store.new).is_honest → OnOk result ((q : Text) (n : ℕ) → with_each with_row rows.new.items (λ _. no_rows) q n
        ≡ (if bytes_eq panel.now q
        then or_else (remembered_row (former renamings.now (S.standing store.old).content.tables.next 1 panel.now)
        (former renamings.now (S.standing store.old).content.tables.row no_rows panel.now) n)
        (with_each with_row rows.old.items (λ _. no_rows) q n)
        else with_each with_row rows.old.items (λ _. no_rows) q n)) }
{
    match former_name(renamings, panel) {
        Some(former) => put_rows(store, rows, panel, &former),
        None => Ok(()),
    }
}

/// The rows of the building's panels: of each those that it may still repeat or use.
pub fn adopted_rows<S: Store>(
    alloc: Global,
    store: &mut S,
    renamings: &[Renaming],
    panels: &[Panel],
) -> Result<Vec<KeptRow>, StoreFault>
    requires open { IsOpen (S.standing store.old) }
    ensures reads { Reads (result_err result) (S.standing store.old) (S.standing store.new) }
    ensures kept { (S.standing store.new).is_honest → IfOk result (λ rows. (q : Text) (n : ℕ) → with_each with_row rows.items (λ _. no_rows) q n
        ≡ at_items (λ (it : a_panel). it.name) panels.now
        (λ name. remembered_row (former renamings.now (S.standing store.old).content.tables.next 1 name)
        (former renamings.now (S.standing store.old).content.tables.row no_rows name) n) None q) }
{
    let mut rows = Vec::new(alloc);
    for panel in panels {
        adopt_panel(store, &mut rows, renamings, &panel.name)?;
    }
    Ok(rows)
}
