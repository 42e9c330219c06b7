//! What does a line of a list of deliveries say, and what is the text of a delivery or a reply?
//!
//! `parse_line` reads a line by `serde_json`: a command or a skip of a panel (`panel_line`), a tick, or the holiday
//! list of an import, which `building_holidays` reads for the building (`clock_line`). A list at fault is reported as
//! such, and is no delivery. A line in the form in which `line_of_delivery` writes one is only compared with that form
//! (`written_line`), and a command in another form is read in one pass, token by token (`read_members`). Their parts are
//! for whoever reads a delivery of another form: the value of a JSON text, what it says of a command, and the
//! import of a list. `ReplyText` is the text of a reply, `RefusedImportText` that of a list at fault, and
//! `line_of_delivery` writes a delivery as a line.
#![tactic(auto)]

pub use clock_line::import_of;
pub use command_members::CommandMembers;
pub use delivery_line::{parse_line, value_of};
pub use delivery_text::line_of_delivery;
pub use line_ends::last_end;
pub use line_fault::LineFault;
pub use members::{has_only, lone_integer};
pub use object_members::read_members;
pub use panel_line::{CommandBody, command_body_in, name_in, priority_in, value_in};
pub use parsed_line::ParsedLine;
pub use reply_text::{RefusedImportText, ReplyText};
pub use written_line::{written_body, written_delivery};

mod clock_line;
mod command_members;
mod delivery_line;
mod delivery_text;
mod line_ends;
mod line_fault;
mod members;
mod object_members;
mod panel_line;
mod parsed_line;
mod reply_text;
mod scalars;
mod usual_line;
mod written_line;
