//! A question that a query answers with no row.
ghost use Rattle.std.specs.Prelude.{◌≡◌, false};
ghost use Rattle.sqlite.specs.Held.{state};
ghost use Rattle.store_sql.specs.Asking.{Asks, FindsNone, IsAskable, Joins};

use sqlite::{Alter, Connection, Error};
use store_sql_rows::look;

/// Whether the answer of a query is empty.
pub fn finds_none<S: Alter>(connection: &mut Connection<S>, sql: &str) -> Result<bool, Error>
    requires { IsAskable sql.now }
    ensures mode { connection.old.in_transaction ≡ false → connection.new.in_transaction ≡ false }
    ensures asks { Asks (FindsNone sql.now) (state S.Store connection.old) (state S.Store connection.new) result }
{
    Ok(look(connection, sql, &[])?.is_empty())
}

/// Whether the answers of two queries are empty.
#[tactic(auto, using(store_sql_rows::proofs::FailLemmas::fails_later, store_sql_rows::proofs::FailLemmas::fails_later_if))]
pub fn neither_finds<S: Alter>(
    connection: &mut Connection<S>,
    first: &str,
    second: &str,
) -> Result<bool, Error>
    requires first { IsAskable first.now }
    requires second { IsAskable second.now }
    ensures mode { connection.old.in_transaction ≡ false → connection.new.in_transaction ≡ false }
    ensures asks { Asks (Joins (FindsNone first.now) (FindsNone second.now)) (state S.Store connection.old)
        (state S.Store connection.new) result }
{
    if finds_none(connection, first)? {
        finds_none(connection, second)
    } else {
        Ok(false)
    }
}
