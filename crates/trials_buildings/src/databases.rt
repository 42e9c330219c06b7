//! Tables in a database.

use sqlite::{Connection, MemStore};
use std::alloc::Global;
use store::OpenFault;
use store_sql::SqlStore;

/// The tables of a database in memory that has nothing yet, without what is promised of them.
pub fn new_database(alloc: Global) -> Result<SqlStore<MemStore>, OpenFault> {
    let Ok(connection) = Connection::open_in_memory(alloc) else {
        return Err(OpenFault::NoMemory);
    };
    match SqlStore::create(alloc, connection) {
        Ok(store) => Ok(store),
        Err((fault, _connection)) => Err(fault),
    }
}
