//! The priority array of a point.
ghost use Rattle.std.specs.Prelude.{◌≡◌, false, true, Err, IfErr, IfOk, OnOk, IsTrue, [], ◌∷◌};
ghost use Rattle.std.specs.Result.{result_err};
ghost use Rattle.sqlite.specs.Held.{state};
ghost use Rattle.sqlite.specs.State.{HasCleanDisk, Survives};
ghost use Rattle.sqlite_value.specs.Order.{column};
ghost use Rattle.store_sql_rows.specs.Broken.{cannot_stand_in};
ghost use Rattle.store.specs.Asked.Asked.{ArrayOf};
ghost use Rattle.store_sql_rows.specs.Looking.{Finds};
ghost use Rattle.store_sql_rows.specs.Ours.{IsOurs, kept_in};
ghost use Rattle.store_sql.specs.Leaving.{Answers};
ghost use Rattle.store_sql.specs.Placing.{IsPlaced, cannot_place};
ghost use Rattle.store_sql_rows.specs.Cells.{is_text};
ghost use Rattle.store_sql_rows.specs.declared.read_fault.ReadFault.TheVariants.{BadRow};
ghost use Rattle.store_sql_rows.specs.Stored.{Kept, tables_in};

use points::{Name, PriorityArray};
use sqlite::{Alter, Connection, Row};
use store_sql_rows::{ReadFault, RowNumbers, count_at, number_at, places};

// Puts the value that a row with the cells of a priority and a value says, where that place has none.
fn place(array: &mut PriorityArray, row: &Row) -> Result<(), ReadFault>
    ensures placed { OnOk result (IsPlaced row.now array.old array.new) }
    ensures bad { IfErr result (λ _. IsTrue (cannot_place row.now array.old)) }
    ensures fault { IfErr result (λ fault. fault ≡ BadRow) }
{
    let priority = count_at(row, 0, 1, 16)? as u8;
    let value = number_at(row, 1)?;
    if array.value_at(priority).is_some() {
        return Err(ReadFault::BadRow);
    }
    array.set(priority, Some(value));
    Ok(())
}

// What the answer of the query on the places of a point says.
fn parsed_array(point: &Name, rows: Vec<Row>) -> Result<PriorityArray, ReadFault>
    ensures value { (kept : Kept)
        → Finds (λ row. is_text point.now (column row 1)) (λ row. column row 2 ∷ column row 3 ∷ column row 0 ∷ []) kept.place rows.items
        → IfOk result (λ it. it ≡ (tables_in kept).places point.now) }
    ensures bad { (kept : Kept)
        → Finds (λ row. is_text point.now (column row 1)) (λ row. column row 2 ∷ column row 3 ∷ column row 0 ∷ []) kept.place rows.items
        → IfErr result (λ _. cannot_stand_in kept (ArrayOf point.now) ≡ true) }
    ensures stood { (kept : Kept)
        → Finds (λ row. is_text point.now (column row 1)) (λ row. column row 2 ∷ column row 3 ∷ column row 0 ∷ []) kept.place rows.items
        → IfOk result (λ _. cannot_stand_in kept (ArrayOf point.now) ≡ false) }
    ensures fault { IfErr result (λ fault. fault ≡ BadRow) }
{
    // What is asked for is a name, as a row's own has to be.
    let _name = point.as_str();
    let mut array = PriorityArray::new();
    for row in &rows {
        place(&mut array, row)?;
    }
    Ok(array)
}

/// The priority array of a point: without values where nothing is kept of it. The numbers of its rows are noted.
pub fn array_of<S: Alter>(
    connection: &mut Connection<S>,
    numbers: &mut RowNumbers,
    point: &Name,
) -> Result<PriorityArray, ReadFault>
    ensures answers { Answers (λ kept it. (it ≡ (tables_in kept).places point.now)
        × (cannot_stand_in kept (ArrayOf point.now) ≡ false))
        (λ kept. cannot_stand_in kept (ArrayOf point.now) ≡ true)
        (state S.Store connection.old) (state S.Store connection.new) result }
{
    let rows = places::of_point(connection, point)?;
    numbers.note_places(point, &rows);
    parsed_array(point, rows)
}
