//! What does `desk rebuild` make and print, and how does it end?
//!
//! `rebuild_database` reads the building of a file and the whole lines of a record, makes their deliveries in memory behind
//! the base that the record may stand on (`cli_record`), and copies the tables that they leave into the empty store of a new database (`store_copy`), in one
//! commit (`rebuilding`). Its text tells what these tables hold, and how many bytes stand behind the record's last line
//! end (`rebuilt_text`). What ends it besides is an `AdoptionFault`, and `cli_check::finish` closes the new database, puts
//! it in its place and prints the text, as for an adoption.
#![tactic(auto)]

pub use rebuilding::rebuild_database;

mod rebuilding;
mod rebuilt_text;
