//! How is the store in the database of a path opened, and how is it closed?
//!
//! `open_store` has the two files of a path, a connection to the database in them (`connecting`), and the store over
//! that. Where there is no database, one is begun: it has small pages, since a command's commit writes five of them
//! whole. What a connection then shows, and what a failed one says and leaves, is `specs/Begun.antt`. Files that have
//! lost a part of a database are refused by their lengths (`specs/Lost.antt`), since one would be begun anew in them.
//! `closed` copies the log into the database file, which has the tables alone then (`specs/Closed.antt`): at the end of
//! each run, and once the tables of a new database are made. `find_store` has the store of a database that is there,
//! and makes none; `find_store_as_it_is` leaves tables of version 1 as they are, too (`finding`). `open_record` has the
//! file of a record. `refusal_at` says why a database was not opened. All that knows the types of a real file stands in these calls, so that what they cost to prove is
//! paid once.
#![tactic(auto)]

pub use closing::closed;
pub use connecting::{connected, options};
pub use database_file::{
    DeskStore, RecordFile, close_store, find_store, find_store_as_it_is, open_record, open_store,
};
pub use finding::Found;
pub use refusal::{Refusal, refusal_at};

mod closing;
mod connecting;
mod database_file;
mod finding;
mod lost_part;
mod refusal;
