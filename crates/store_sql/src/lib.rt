//! What do the desk's tables in a database hold?
//!
//! A `SqlStore` keeps the six tables in a database of SQLite, over a connection that is handed in. It meets the
//! contract of `Store`: a read answers what the tables hold, a commit makes a whole change or nothing, and whenever
//! the program stops, a store that no failure has shut leaves what its last commit left.
//!
//! `commit_change` writes a whole change in one transaction and commits it, or nothing of it is left: `write` writes
//! it, list after list, in a transaction that goes on. Whatever a stop in its midst leaves is what could be left
//! before, or the tables with the whole change.
//!
//! `make` makes the tables in an empty database. `take` takes a database whose tables are of this version, or of the
//! first, which it makes those of this one, and whose rows are such as a store writes (`own_rows`).
//!
//! Each function of `finding` and `placing` reads one of the six tables and answers what they hold, or that a row
//! cannot stand. The others list: the entries of a calendar and a panel's run of rows, each by one query, the run one row
//! at a time, and the names, each by a query of its own.
#![tactic(auto)]

pub use sql_store::SqlStore;

mod asking;
mod committing;
mod early;
mod entries;
mod finding;
mod making;
mod memory;
mod names;
mod next_names;
mod numbered;
mod only;
mod own_rows;
mod placing;
mod raising;
mod refusal;
mod rows;
mod session;
mod sql_store;
mod tables;
mod taking;
mod version;
mod writing;
