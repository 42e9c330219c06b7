//! What do the desk's tables hold?
//!
//! A `Store` has six tables: the places of points, the next numbers of panels, the rows of their commands,
//! what schedules show, the entries that are imported into calendars, and the moment of the last tick. It is
//! read by its reads and changed by one call alone, `commit`, which makes a whole `Change` or nothing. Its
//! contract also says what a failure leaves, and what a stop of the program may leave at any moment. Tables in memory
//! are `store_memory`'s, those in a database `store_sql`'s. `read_nexts` is a read of the next numbers of some panels.
#![tactic(auto)]

pub use change::{Change, ImportedEntry, KeptRow, NextNumber, PlaceValue, RowsBelow, ShownValue};
pub use fault::StoreFault;
pub use names::Names;
pub use next_numbers::read_nexts;
pub use open_fault::OpenFault;
pub use store::Store;

mod change;
mod fault;
mod names;
mod next_numbers;
mod open_fault;
mod store;
