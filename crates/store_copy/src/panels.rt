//! The next numbers and the rows of panels.
ghost use Rattle.std.specs.Prelude.{◌≡◌, ℕ, ◌≤◌, ◌<◌, ◌++◌, if◌then◌else◌, filter, map, true, None, IfOk, OnOk};
ghost use Rattle.std.specs.Result.{result_err};
ghost use Rattle.std.specs.Str.{bytes_eq};
ghost use Rattle.points.specs.Run.{Rows};
ghost use Rattle.points.specs.Texts.{Text};
ghost use Rattle.store.specs.Change.{with_each, with_next, with_row};
ghost use Rattle.store.specs.Standing.{IsOpen, Reads};
ghost use Rattle.store.specs.Tables.{no_tables};
ghost use Rattle.store_copy.specs.Named.{at_names, next_over, or_else, row_for};
ghost use Rattle.store_copy.specs.Remembered.{is_remembered, remembered_row};

use points::{Name, NumberedRow};
use std::alloc::{AllocError, Global};
use store::{KeptRow, NextNumber, Store, StoreFault};
use window::{LAST_NUMBER, REMEMBERED, WINDOW};

/// Puts a panel's next number last, unless it is 1, as where none is kept.
fn add_next(nexts: &mut Vec<NextNumber>, panel: &Name, next: u64) -> Result<(), AllocError>
    ensures { OnOk result ((q : Text) → with_each with_next nexts.new.items no_tables.next q
        ≡ (if bytes_eq panel.now q then next_over next (with_each with_next nexts.old.items no_tables.next q)
        else with_each with_next nexts.old.items no_tables.next q)) }
{
    if next != 1 {
        nexts.push(NextNumber {
            panel: *panel,
            next,
        })?;
    }
    Ok(())
}

/// The next numbers of panels.
pub fn nexts_of<S: Store>(
    alloc: Global,
    store: &mut S,
    panels: &[Name],
) -> Result<Vec<NextNumber>, StoreFault>
    requires open { IsOpen (S.standing store.old) }
    ensures reads { Reads (result_err result) (S.standing store.old) (S.standing store.new) }
    ensures named { (S.standing store.new).is_honest → IfOk result (λ nexts. (q : Text) → with_each with_next nexts.items no_tables.next q
        ≡ at_names panels.now (S.standing store.old).content.tables.next 1 q) }
{
    let mut nexts = Vec::new(alloc);
    for panel in panels {
        let next = store.panel_next(panel)?;
        add_next(&mut nexts, panel, next)?;
    }
    Ok(nexts)
}

/// Whether a panel with this next number may still repeat or use a number.
fn is_remembered(next: u64, number: u64) -> bool
    ensures { result ≡ is_remembered next number }
{
    next.saturating_sub(REMEMBERED) <= number
        && number < next.saturating_add(WINDOW)
        && number <= LAST_NUMBER
}

/// The first number that a panel with this next number may still repeat.
fn first_remembered(next: u64) -> u64
    ensures { (number : ℕ) → is_remembered next number ≡ true → result ≤ number }
{
    next.saturating_sub(REMEMBERED)
}

/// The number after those that a panel with this next number may use.
fn past_remembered(next: u64) -> u64
    ensures { (number : ℕ) → is_remembered next number ≡ true → number < result }
{
    next.saturating_add(WINDOW).min(LAST_NUMBER + 1)
}

/// Puts a panel's rows last, of those that are remembered.
fn add_run(
    rows: &mut Vec<KeptRow>,
    panel: &Name,
    next: u64,
    run: &[NumberedRow],
) -> Result<(), AllocError>
    ensures { OnOk result (rows.new.items
        ≡ rows.old.items ++ map (row_for panel.now) (filter (λ it. is_remembered next it.number) run.now)) }
{
    for numbered in run {
        if is_remembered(next, numbered.number) {
            rows.push(KeptRow {
                panel: *panel,
                number: numbered.number,
                row: numbered.row,
            })?;
        }
    }
    Ok(())
}

/// Puts the rows last that a panel has in the tables under another name or its own: of the 1,000 numbers below its next
/// one, and of its window.
pub fn put_rows<S: Store>(
    store: &mut S,
    rows: &mut Vec<KeptRow>,
    panel: &Name,
    former: &Name,
) -> Result<(), StoreFault>
    requires open { IsOpen (S.standing store.old) }
    ensures reads { Reads (result_err result) (S.standing store.old) (S.standing store.new) }
    ensures added { (S.standing store.new).is_honest → OnOk result ((table : Text → Rows) (q : Text) (n : ℕ)
        → with_each with_row rows.new.items table q n
        ≡ (if bytes_eq panel.now q
        then or_else (remembered_row ((S.standing store.old).content.tables.next former.now) ((S.standing store.old).content.tables.row former.now) n)
        (with_each with_row rows.old.items table q n)
        else with_each with_row rows.old.items table q n)) }
{
    let next = store.panel_next(former)?;
    let upto = past_remembered(next);
    let from = first_remembered(next).min(upto);
    let run = store.commands_run(former, from, upto)?;
    add_run(rows, panel, next, run.as_slice())?;
    Ok(())
}

/// The rows of panels.
pub fn rows_of<S: Store>(
    alloc: Global,
    store: &mut S,
    panels: &[Name],
) -> Result<Vec<KeptRow>, StoreFault>
    requires open { IsOpen (S.standing store.old) }
    ensures reads { Reads (result_err result) (S.standing store.old) (S.standing store.new) }
    ensures named { (S.standing store.new).is_honest → IfOk result (λ rows. (q : Text) (n : ℕ) → with_each with_row rows.items no_tables.row q n
        ≡ at_names panels.now
        (λ panel. remembered_row ((S.standing store.old).content.tables.next panel) ((S.standing store.old).content.tables.row panel) n)
        None q) }
{
    let mut rows = Vec::new(alloc);
    for panel in panels {
        put_rows(store, &mut rows, panel, panel)?;
    }
    Ok(rows)
}
