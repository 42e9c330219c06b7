//! The version that the row of `desk` says.
ghost use Rattle.std.specs.Prelude.{◌≡◌, false, true, Err, IfErr, IfOk, None, Some, List, [], ◌∷◌};
ghost use Rattle.std.specs.Result.{result_err};
ghost use Rattle.sqlite.specs.Held.{state};
ghost use Rattle.sqlite.specs.State.{HasCleanDisk, Survives};
ghost use Rattle.sqlite_value.specs.Order.{Row as Cells, column};
ghost use Rattle.store_sql_rows.specs.Looking.{Finds};
ghost use Rattle.store_sql_rows.specs.Ours.{IsOne, IsOurs};
ghost use Rattle.store_sql.specs.Leaving.{Asks};
ghost use Rattle.store_sql.specs.Opening.{version_in, version_of};
ghost use Rattle.store_sql_rows.specs.declared.read_fault.ReadFault.TheVariants.{BadRow};

use sqlite::{Alter, Connection, Row};
use store_sql_rows::{ReadFault, desk_row, number_at};

// What the answer of the query on `desk` says.
fn parsed_version(rows: &[Row]) -> Result<i64, ReadFault>
    ensures value { (kept : List Cells) → IsOne kept → Finds (λ row. true) (λ row. column row 2 ∷ column row 3 ∷ []) kept rows.now
        → IfOk result (λ version. version_in kept ≡ Some version) }
    ensures bad { (kept : List Cells) → IsOne kept → Finds (λ row. true) (λ row. column row 2 ∷ column row 3 ∷ []) kept rows.now
        → IfErr result (λ _. version_in kept ≡ None) }
    ensures fault { IfErr result (λ fault. fault ≡ BadRow) }
{
    match rows.first() {
        None => Err(ReadFault::BadRow),
        Some(row) => number_at(row, 0),
    }
}

/// The version of the tables.
#[tactic(auto, using(crate::proofs::OpenLemmas::sees_unchanged))]
pub fn version_of<S: Alter>(connection: &mut Connection<S>) -> Result<i64, ReadFault>
    ensures mode { connection.old.in_transaction ≡ false → connection.new.in_transaction ≡ false }
    ensures asks { HasCleanDisk (state S.Store connection.new) → IsOurs (state S.Store connection.old).now
        → Asks (result_err result) (state S.Store connection.old) (state S.Store connection.new) }
    ensures value { HasCleanDisk (state S.Store connection.new) → IsOurs (state S.Store connection.old).now
        → IfOk result (λ version. version_of (state S.Store connection.old).now.trees ≡ Some version) }
    ensures bad { HasCleanDisk (state S.Store connection.new) → IsOurs (state S.Store connection.old).now → result ≡ Err BadRow
        → version_of (state S.Store connection.old).now.trees ≡ None }
    ensures survives { Survives (state S.Store connection.old) (state S.Store connection.new)
        (λ _. IsOurs (state S.Store connection.old).now → ⊥) }
{
    let rows = desk_row::find(connection)?;
    parsed_version(&rows)
}
