//! What do the subcommands of the program have in common?
//!
//! Each reads the building of a file (`read_building`), prints texts whole or reports that the output failed
//! (`print_text`, `flush`, or both by `print_whole`), prints a fault as one line (`RunFault`, `print_fault`), and ends
//! with a `Status`.
#![tactic(auto)]

pub use fault_line::print_fault;
pub use input::{Input, ListInput};
pub use printing::{flush, print_text, print_whole};
pub use reading::{read_building, read_start};
pub use run_fault::RunFault;
pub use status::Status;

mod fault_line;
mod input;
mod printing;
mod reading;
mod run_fault;
mod status;
