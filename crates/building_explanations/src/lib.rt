//! What is the item that a building file's fault names, and what is expected there?
//!
//! A fault names a table and a key. `explanation` reads the file again, finds the item at which the fault's cause
//! holds, and says it in one line: where it stands in its table (`ItemPath`), its text, and what is wrong (`Remark`).
//!
//! From the bottom up: `TableKind` has the keys of each kind of table and what they take; `TableAt` is a table of the
//! file with its position in it; `remarks` says whether a cause holds of a value, and `items` walks the lists of a key
//! in the order in which they are read; `at_fault` begins with the table that the fault names. Entries and time values
//! have words of their own (`entry_words`, `time_values`), and a file that is no TOML has a line and a column
//! (`text_position`).
#![tactic(auto)]

pub use explaining::explanation;

mod at_fault;
mod entry_words;
mod explaining;
mod faulty_item;
mod item_path;
mod items;
mod limits;
mod one_line;
mod quoting;
mod remark;
mod remarks;
mod table_at;
mod table_kind;
mod text_position;
mod time_values;
