//! What do the words of the command line ask?
//!
//! `Line::of` reads the program's words by `clap`, and answers the subcommand with its values, or an
//! `ArgFault` with the text that the user is to see.
#![tactic(auto)]

pub use arg_fault::ArgFault;
pub use line::Line;
pub use version::VERSION;

mod arg_fault;
mod arguments;
mod commands;
mod line;
mod version;
