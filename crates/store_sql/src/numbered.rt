//! A panel's rows by their numbers, as one query answers them.
ghost use Rattle.std.specs.Prelude.{◌≡◌, ◌≤◌, ◌<◌, ◌++◌, ◌∷◌, [], IfErr, IfNone, IfOk, IfSome, List, None, OnOk, Some, ℕ, IsSome, cond, ◌==◌};
ghost use Rattle.std.specs.BTreeMap.{get};
ghost use Rattle.std.specs.Ordering.{nat_cmp};
ghost use Rattle.points.specs.declared.numbered_row.TheConstants.{LAST_NUMBER};
ghost use Rattle.points.specs.Run.{IsRun};
ghost use Rattle.sqlite_value.specs.Order.{Row as Cells, column};
ghost use Rattle.store.specs.Asked.{IsBrokenRun};
ghost use Rattle.store_sql.specs.Leaving.{IsOwnFault, out_of_memory};
ghost use Rattle.store_sql.specs.Numbered.{AreSaid, HasNumbers, IsListed};
ghost use Rattle.store_sql.specs.Stepping.{GoesOn, HaveStood, IsBrokenNext};
ghost use Rattle.store_sql_rows.specs.Broken.{cannot_stand_in};
ghost use Rattle.store_sql_rows.specs.Stored.{Kept, tables_in};
ghost use Rattle.store_sql_rows.specs.declared.read_fault.ReadFault.TheVariants.{BadRow};

use crate::memory::{no_memory, push};
use points::{CommandRow, LAST_NUMBER, NumberedRow};
use sqlite::Row;
use std::alloc::{AllocError, Global};
use std::collections::BTreeMap;
use store_sql_rows::{ReadFault, command_at, count_at};

/// The rows of a panel by their numbers; no command where what stands under a number cannot stand.
pub type Numbered = BTreeMap<u64, Option<CommandRow>>;

// Puts what stands under a number.
fn put(numbered: &mut Numbered, number: u64, said: Option<CommandRow>) -> Result<(), AllocError>
    ensures { OnOk result ((n : ℕ) → get nat_cmp numbered.new n ≡ cond (number == n) (Some said) (get nat_cmp numbered.old n)) }
{
    numbered.insert(number, said)?;
    Ok(())
}

// Adds a row of the answer to those before it. Past the greatest number no row of a command can stand, and of two rows
// under one number neither can.
fn add(numbered: &mut Numbered, row: &Row) -> Result<(), AllocError>
    ensures said { OnOk result ((before : List Cells) → AreSaid before numbered.old → AreSaid (before ++ row.now ∷ []) numbered.new) }
    ensures numbers { OnOk result (HasNumbers numbered.old → HasNumbers numbered.new) }
{
    let Ok(number) = count_at(row, 0, 1, LAST_NUMBER) else {
        return Ok(());
    };
    let said = if numbered.contains_key(&number) {
        None
    } else {
        command_at(row, 1).ok()
    };
    put(numbered, number, said)
}

/// The rows of an answer by their numbers, each with its number first and then its six cells.
pub fn by_number(alloc: Global, rows: &[Row]) -> Result<Numbered, ReadFault>
    ensures said { IfOk result (AreSaid rows.now) }
    ensures numbers { IfOk result HasNumbers }
    ensures fault { IfErr result (λ fault. fault ≡ out_of_memory) }
{
    let mut numbered = BTreeMap::new(alloc);
    for row in rows {
        if add(&mut numbered, row).is_err() {
            return Err(no_memory());
        }
    }
    Ok(numbered)
}

// What stands under the least number from one on.
fn next(numbered: &Numbered, from: u64) -> Option<(u64, Option<CommandRow>)>
    ensures after { IfSome result (λ it. from ≤ it.0) }
    ensures at { IfSome result (λ it. get nat_cmp numbered.now it.0 ≡ Some it.1) }
    ensures least { (n : ℕ) → from ≤ n → IsSome (get nat_cmp numbered.now n) → IfSome result (λ it. it.0 ≤ n) }
    ensures none { IfNone result ((n : ℕ) → from ≤ n → get nat_cmp numbered.now n ≡ None) }
{
    let (number, said) = numbered.range(from..).next()?;
    Some((*number, *said))
}

// The next row of a run up to `upto` and beyond, from a number on: none where the run ends.
fn next_in_run(numbered: &Numbered, from: u64, upto: u64) -> Result<Option<NumberedRow>, ReadFault>
    requires { HasNumbers numbered.now }
    ensures after { IfOk result (λ it. IfSome it (λ found. from ≤ found.number)) }
    ensures greatest { IfOk result (λ it. IfSome it (λ found. found.number ≤ LAST_NUMBER)) }
    ensures value { (kept : Kept) (panel : List ℕ) (least gap : ℕ) → IsListed kept panel least upto gap numbered.now → from ≤ gap
        → ((n : ℕ) → from ≤ n → 1 ≤ n → least ≤ n)
        → IfOk result (λ it. GoesOn ((tables_in kept).row panel) from upto it × HaveStood kept panel from upto it
        × IfSome it (λ found. found.number < gap)) }
    ensures bad { (kept : Kept) (panel : List ℕ) (least gap : ℕ) → IsListed kept panel least upto gap numbered.now → from ≤ gap
        → ((n : ℕ) → from ≤ n → 1 ≤ n → least ≤ n) → IfErr result (λ _. IsBrokenNext kept panel from upto) }
    ensures fault { IfErr result (λ fault. fault ≡ BadRow) }
{
    let Some((number, said)) = next(numbered, from) else {
        return Ok(None);
    };
    if upto < number && number != from {
        return Ok(None);
    }
    match said {
        Some(row) => Ok(Some(NumberedRow { number, row })),
        None => Err(ReadFault::BadRow),
    }
}

/// The rows at the numbers from `from` up to and without `upto`, then those from `upto` on that follow without gap, by
/// rising number.
pub fn run_in(
    alloc: Global,
    numbered: &Numbered,
    from: u64,
    upto: u64,
) -> Result<Vec<NumberedRow>, ReadFault>
    requires numbers { HasNumbers numbered.now }
    requires ordered { from ≤ upto }
    ensures value { (kept : Kept) (panel : List ℕ) (least gap : ℕ) → IsListed kept panel least upto gap numbered.now → from ≤ gap
        → ((n : ℕ) → from ≤ n → 1 ≤ n → least ≤ n)
        → IfOk result (λ it. IsRun ((tables_in kept).row panel) from upto it.items
        × (IsBrokenRun (cannot_stand_in kept) ((tables_in kept).row panel) panel from upto → ⊥)) }
    ensures bad { (kept : Kept) (panel : List ℕ) (least gap : ℕ) → IsListed kept panel least upto gap numbered.now → from ≤ gap
        → ((n : ℕ) → from ≤ n → 1 ≤ n → least ≤ n)
        → IfErr result (λ fault. fault ≡ BadRow → IsBrokenRun (cannot_stand_in kept) ((tables_in kept).row panel) panel from upto) }
    ensures fault { IfErr result IsOwnFault }
{
    let mut run = Vec::new(alloc);
    let mut number = from;
    for _ in 0..u64::MAX {
        match next_in_run(numbered, number, upto)? {
            Some(found) => {
                let last = found.number;
                push(&mut run, found)?;
                number = last + 1;
            }
            None => return Ok(run),
        }
    }
    // So many rows have no room in memory.
    Err(no_memory())
}
