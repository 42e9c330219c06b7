//! What does a panel's command or skip answer, and leave?
//!
//! It is answered in this order: the store is read for what is kept of the panel (`viewing`); `window` makes the
//! plan for its number; the plan's commands are acted on in their order, in memory (`acting`); one commit makes
//! the whole change, as the last call of the store (`carrying_out`); the reply is made from the plan's verdict
//! (`replying`). The contracts speak of the definitions of `deliveries`.
#![tactic(auto)]

pub use answering::{deliver_command, deliver_skip};

mod acting;
mod answering;
mod carrying_out;
mod replying;
mod viewing;
