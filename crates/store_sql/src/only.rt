//! The one row of an answer.
ghost use Rattle.std.specs.Prelude.{◌≡◌, IfErr, IfOk, None, Ok, IfSome, [], ◌∷◌, List};
ghost use Rattle.sqlite_value.specs.Order.{Row as Cells};
ghost use Rattle.store_sql.specs.Leaving.{AreSeveral};
ghost use Rattle.store_sql_rows.specs.declared.read_fault.ReadFault.TheVariants.{BadRow};

use sqlite::Row;
use store_sql_rows::ReadFault;

/// The row of an answer, if it has one. An answer of several rows means two rows with one key.
pub fn only(mut rows: Vec<Row>) -> Result<Option<Row>, ReadFault>
    ensures none { result ≡ Ok None → rows.items ≡ [] }
    ensures one { IfOk result (λ row. IfSome row (λ row. rows.items ≡ row ∷ [])) }
    ensures several { IfErr result (λ _. AreSeveral rows.items) }
    ensures fault { IfErr result (λ fault. fault ≡ BadRow) }
{
    let row = rows.pop();
    if rows.is_empty() {
        Ok(row)
    } else {
        Err(ReadFault::BadRow)
    }
}
