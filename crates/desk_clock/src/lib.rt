//! What does a tick or an import answer, and leave?
//!
//! It is answered in this order: the store is read for the last tick; of a tick the moment is looked at (`ticking`), of
//! an import its rows are, and which of them are new (`importing`, `adding`, `known`); the schedules are settled by
//! `desk_settling`, which reads the store; one commit makes the whole change, as the last call of the store
//! (`changing`). The contracts speak of the definitions of `deliveries`.
#![tactic(auto)]

pub use adding::{add_row, added_items};
pub use importing::{deliver_import, deliver_import_after};
pub use known::Known;
pub use ticking::{deliver_tick, deliver_tick_after};

mod adding;
mod changing;
mod importing;
mod known;
mod ticking;
