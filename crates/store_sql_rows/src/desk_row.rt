//! The statements on the one row of `desk`.
ghost use Rattle.std.specs.Prelude.{true, [], ◌∷◌};
ghost use Rattle.sqlite.specs.Held.{state};
ghost use Rattle.sqlite_value.specs.declared.value.Value.TheVariants.{Int};
ghost use Rattle.sqlite_value.specs.Order.{column};
ghost use Rattle.store_sql_rows.specs.Looking.{Finds, Reads};
ghost use Rattle.store_sql_rows.specs.Ours.{Changes, SetsDesk};
ghost use Rattle.store_sql_rows.specs.Steps.{Moves};

use crate::looking::ask;
use crate::parameters::whole;
use crate::running::run;
use sqlite::{Alter, Connection, Error, Row, Transaction};

/// Sets the moment of the last tick.
pub fn set_last<S: Alter>(transaction: &mut Transaction<'_, S>, moment: i64) -> Result<usize, Error>
    ensures moves { Moves S.Store (Changes (SetsDesk (λ _. Int moment))) transaction.old.conn transaction.new.conn result }
{
    run(transaction, "UPDATE desk SET last = ?1", &[whole(moment)])
}

/// The cells `version` and `last`.
pub fn find<S: Alter>(connection: &mut Connection<S>) -> Result<Vec<Row>, Error>
    ensures reads { Reads (λ kept rows. Finds (λ row. true) (λ row. column row 2 ∷ column row 3 ∷ []) kept.desk rows.items)
        (state S.Store connection.old) (state S.Store connection.new) result }
{
    ask(connection, "SELECT version, last FROM desk", &[])
}
