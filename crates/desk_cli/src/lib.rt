//! What do the runs that use no database print, and how do they end?
//!
//! `describe` reads the building of a file and prints it as one JSON object (`description`, `specs/Description.antt`).
//! A building has the rule of its zone and not the rule's text, which `zone_text` reads from the building file.
//!
//! `replay` and `explain` make the deliveries of a list to a desk in memory, which begins on the tables of the list's base or
//! on empty ones (`cli_base`). `replay` prints what each line is answered (`answer_line`) and then the line of each point
//! (`points`). `answer_line` delivers to a desk what a line says (`delivery_json`), and gives the text of the reply. `explain`
//! reads the list up to a moment, and answers a `Question`: what a point presents then, what put each value in its places,
//! and when the schedules that target it change next (`desk_why`); or when panels' commands gave points their values
//! (`desk_overrides`). `straighten` reads the whole list first, and then prints its straight list (`desk_straighten`), a
//! line for each delivery.
//!
//! `list_deliveries` is what a run that reads the whole list first calls, or `read_deliveries` with a reader of its own;
//! `delivery_in` gives the delivery of one line. What they share with the other subcommands, faults and statuses among
//! it, is `cli_common`'s.
#![tactic(auto)]

pub use describe_run::describe;
pub use explanation_run::explain;
pub use line_answer::answer_line;
pub use list_reading::{delivery_in, list_deliveries, read_deliveries};
pub use question::Question;
pub use replay_run::replay;
pub use straighten_run::straighten;

mod describe_run;
mod description;
mod explanation_run;
mod json_value;
mod line_answer;
mod list_end;
mod list_lines;
mod list_reading;
mod members;
mod question;
mod replay_run;
mod straighten_run;
mod until;
mod zone;
