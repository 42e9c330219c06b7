//! What do `desk tick`, `desk import`, `desk report` and `desk serve` print, and what do they leave?
//!
//! Each reads the building of a file and opens a store. `deliver` makes one delivery to a desk over it, a tick or an
//! import, and prints the reply as a line; `report` prints the report of a day; `foretell`
//! prints what an import would be answered, over a copy of the tables in memory. `serve` listens on an address and serves
//! its connections (`cli_serve`). Where the building's file makes other values of the record than the store has, those that
//! deliver say so first (`otherwise`). Each hands back the store that it opened, as it stands then, also where a fault ended it;
//! `finish` closes it, and gives the status of the whole run. `deliver` hands back the disk of its record too, if it keeps
//! one and was answered.
#![tactic(auto)]

pub use clock_delivery::ClockDelivery;
pub use delivery_run::deliver;
pub use ended::{Delivered, Ended, finish};
pub use foretelling::foretell;
pub use keeper::{Opening, Recording};
pub use report_run::report;
pub use server_run::{Serving, serve};

mod answering;
mod clock_delivery;
mod delivery_run;
mod ended;
mod foretelling;
mod keeper;
mod otherwise;
mod report_run;
mod server_run;
