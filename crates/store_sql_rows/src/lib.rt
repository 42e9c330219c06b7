//! Which statements make, read and write the desk's tables, and what do the rows say?
//!
//! `has_desk_schema` and `has_no_schema` compare the schema that a connection shows with what is written out,
//! and `make_tables` makes the six tables with their first row in one transaction. What stands in such a file is
//! `specs/Schema.antt`; what its texts mean, `proofs/CreateTexts.antt`.
//!
//! Each function of the modules `calendars` to `schedules` runs one statement of SQL, and its contract says what that
//! makes of the rows of the six tables. Those of `putting` and of `next_puts`, `place_puts` and `shown_puts` put one item
//! of a change into them, in a transaction; of the last three a row that was read or added before is found by its
//! number (`RowNumbers`). `place_runs` and `shown_runs` put one value into rows that follow one another by their numbers,
//! by one statement. What a row says is read by `cells` and `command_cells`. `run_from` reads the rows of a panel's run,
//! one at a time. `look` asks a query, whatever it is.
#![tactic(auto)]

pub use cells::{count_at, entry_at, name_at, number_at, optional_at};
pub use command_cells::{StateCells, cells_of, command_at};
pub use command_run::run_from;
pub use creating::{VERSION, make_tables};
pub use looking::look;
pub use next_puts::put_next;
pub use place_runs::put_leading_places;
pub use read_fault::ReadFault;
pub use recognise::{has_desk_schema, has_no_schema};
pub use row_numbers::RowNumbers;
pub use shown_runs::put_leading_shown;

pub mod calendars;
mod cells;
mod command_cells;
mod command_run;
pub mod commands;
mod creating;
pub mod desk_row;
mod looking;
mod next_puts;
pub mod panels;
mod parameters;
mod place_puts;
mod place_runs;
pub mod places;
pub mod putting;
mod read_fault;
mod recognise;
mod row_numbers;
mod running;
pub mod schedules;
mod shown_puts;
mod shown_runs;
