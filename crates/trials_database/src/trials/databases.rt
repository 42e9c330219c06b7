//! Tables in a database in memory, which are made once.
use std::alloc::Global;
use std::test::Fail;
use store::OpenFault;
use store_sql::SqlStore;
use trials_buildings::new_database;

/// The tables of a store, in a store that has read none of their rows.
pub(crate) fn opened_again(
    alloc: Global,
    store: SqlStore<sqlite::MemStore>,
) -> Result<SqlStore<sqlite::MemStore>, Fail> {
    match SqlStore::open(alloc, store.into_connection()) {
        Ok(store) => Ok(store),
        Err((fault, _connection)) => Err(Fail::from(fault)),
    }
}

// Why no tables were made, if none were.
fn fault_of<T: Drop, C: Drop>(made: Result<T, (OpenFault, C)>) -> Option<OpenFault> {
    match made {
        Ok(_store) => None,
        Err((fault, _connection)) => Some(fault),
    }
}

#[test]
fn tables_are_not_made_twice(rt: HostRuntime) -> Result<(), Fail> {
    let connection = new_database(rt.alloc())?.into_connection();
    let fault = fault_of(SqlStore::create(rt.alloc(), connection));
    assert_eq!(rt; fault, Some(OpenFault::UnknownTables));
    Ok(())
}
