//! The next numbers and the rows of panels.
ghost use Rattle.std.specs.Prelude.{◌≡◌, ◌++◌, ℕ};
ghost use Rattle.std.specs.List.{flat_map};
ghost use Rattle.store.specs.Standing.{IsOpen};
ghost use Rattle.cli_record.specs.Compared.{Compares};
ghost use Rattle.cli_record.specs.Differences.{between, end_number, first_number, numbers_of, of_command, of_panel};

use crate::adding::add_unless;
use crate::comparing::CompareFault;
use crate::difference::Difference;
use crate::same_row::is_same_row;
use points::{CommandRow, Name, Panel};
use store::Store;
use window::{LAST_NUMBER, REMEMBERED, WINDOW};

/// The next numbers of a panel.
pub fn nexts<S: Store, T: Store>(
    store: &mut S,
    other: &mut T,
    panel: &Name,
) -> Result<(u64, u64), CompareFault>
    requires open { IsOpen (S.standing store.old) }
    ensures { Compares (λ held recorded both. (both.0 ≡ held.next panel.now) × (both.1 ≡ recorded.next panel.now))
        result (S.standing store.old) (S.standing store.new) (T.standing other.old) (T.standing other.new) }
{
    let held = store.panel_next(panel)?;
    match other.panel_next(panel) {
        Ok(recorded) => Ok((held, recorded)),
        Err(fault) => Err(CompareFault::Recorded(fault)),
    }
}

/// The rows under a number of a panel.
fn rows<S: Store, T: Store>(
    store: &mut S,
    other: &mut T,
    panel: &Name,
    number: u64,
) -> Result<(Option<CommandRow>, Option<CommandRow>), CompareFault>
    requires open { IsOpen (S.standing store.old) }
    ensures { Compares (λ held recorded both. (both.0 ≡ held.row panel.now number) × (both.1 ≡ recorded.row panel.now number))
        result (S.standing store.old) (S.standing store.new) (T.standing other.old) (T.standing other.new) }
{
    let held = store.command(panel, number)?;
    match other.command(panel, number) {
        Ok(recorded) => Ok((held, recorded)),
        Err(fault) => Err(CompareFault::Recorded(fault)),
    }
}

fn compare_row<S: Store, T: Store>(
    found: &mut Vec<Difference>,
    store: &mut S,
    other: &mut T,
    panel: &Name,
    number: u64,
) -> Result<(), CompareFault>
    requires open { IsOpen (S.standing store.old) }
    ensures { Compares (λ held recorded _. found.new.items
        ≡ found.old.items ++ of_command panel.now (held.row panel.now) (recorded.row panel.now) number)
        result (S.standing store.old) (S.standing store.new) (T.standing other.old) (T.standing other.new) }
{
    let (held, recorded) = rows(store, other, panel, number)?;
    let difference = Difference::Command {
        panel: *panel,
        number,
    };
    add_unless(found, is_same_row(held, recorded), difference)?;
    Ok(())
}

/// Adds where the rows of a panel differ at the numbers from `from` on, without `end`.
fn compare_rows<S: Store, T: Store>(
    found: &mut Vec<Difference>,
    store: &mut S,
    other: &mut T,
    panel: &Name,
    from: u64,
    end: u64,
) -> Result<(), CompareFault>
    requires open { IsOpen (S.standing store.old) }
    requires open_other { IsOpen (T.standing other.old) }
    ensures { Compares (λ held recorded _. found.new.items
        ≡ found.old.items ++ flat_map (of_command panel.now (held.row panel.now) (recorded.row panel.now)) (between from end))
        result (S.standing store.old) (S.standing store.new) (T.standing other.old) (T.standing other.new) }
{
    for number in from..end.max(from) {
        compare_row(found, store, other, panel, number)?;
    }
    Ok(())
}

/// The first number that a panel with this next number may still repeat.
pub fn first_number(next: u64) -> u64
    ensures { result ≡ first_number next }
{
    next.saturating_sub(REMEMBERED)
}

/// The number after those that a panel with this next number may use.
pub fn end_number(next: u64) -> u64
    ensures { result ≡ end_number next }
{
    next.saturating_add(WINDOW).min(LAST_NUMBER + 1)
}

/// Adds where the rows of a panel differ that one of two next numbers, the lesser first, still lets it repeat or use.
fn compare_all_rows<S: Store, T: Store>(
    found: &mut Vec<Difference>,
    store: &mut S,
    other: &mut T,
    panel: &Name,
    lesser: u64,
    greater: u64,
) -> Result<(), CompareFault>
    requires open { IsOpen (S.standing store.old) }
    requires open_other { IsOpen (T.standing other.old) }
    ensures { Compares (λ held recorded _. found.new.items
        ≡ found.old.items ++ flat_map (of_command panel.now (held.row panel.now) (recorded.row panel.now)) (numbers_of lesser greater))
        result (S.standing store.old) (S.standing store.new) (T.standing other.old) (T.standing other.new) }
{
    let first_end = end_number(lesser);
    compare_rows(found, store, other, panel, first_number(lesser), first_end)?;
    let from = first_number(greater).max(first_end);
    compare_rows(found, store, other, panel, from, end_number(greater))
}

fn compare_panel<S: Store, T: Store>(
    found: &mut Vec<Difference>,
    store: &mut S,
    other: &mut T,
    panel: &Panel,
) -> Result<(), CompareFault>
    requires open { IsOpen (S.standing store.old) }
    ensures { Compares (λ held recorded _. found.new.items ≡ found.old.items ++ of_panel held recorded panel.now)
        result (S.standing store.old) (S.standing store.new) (T.standing other.old) (T.standing other.new) }
{
    let (held, recorded) = nexts(store, other, &panel.name)?;
    let difference = Difference::NextNumber {
        panel: panel.name,
        held,
        recorded,
    };
    add_unless(found, held == recorded, difference)?;
    compare_all_rows(
        found,
        store,
        other,
        &panel.name,
        held.min(recorded),
        held.max(recorded),
    )
}

/// Adds where panels differ, one after the other.
pub fn compare_panels<S: Store, T: Store>(
    found: &mut Vec<Difference>,
    store: &mut S,
    other: &mut T,
    panels: &[Panel],
) -> Result<(), CompareFault>
    requires open { IsOpen (S.standing store.old) }
    requires open_other { IsOpen (T.standing other.old) }
    ensures { Compares (λ held recorded _. found.new.items ≡ found.old.items ++ flat_map (of_panel held recorded) panels.now)
        result (S.standing store.old) (S.standing store.new) (T.standing other.old) (T.standing other.new) }
{
    for panel in panels {
        compare_panel(found, store, other, panel)?;
    }
    Ok(())
}
