//! What must the tables and the replies be after a list of deliveries?
//!
//! The definitions, over whole lists: what was accepted of each panel (`specs/Accepted.antt`), the commands
//! that are acted on and their place among the deliveries (`specs/Events.antt`), the priority machine that
//! acts on them (`specs/Machine.antt`), the tables that it leaves (`specs/Tables.antt`) and what each
//! delivery is answered (`specs/Reply.antt`). What a store holds around one delivery is `specs/Delivered.antt`.
//! The code that carries them out is that of `desk_commands`, `desk_clock` and `desk`, whose contracts speak of
//! nothing else; here stands what a delivery alone says.
//!
//! What follows of them stands here too, as contracts of functions that do nothing. A delivery that comes again changes
//! nothing (`laws`). Settling leaves in each place and schedule what its rule says (`settling_laws`; ANSI/ASHRAE
//! 135-2016, 12.24, in this desk's profile). The straight list has each applied command once at the place of its
//! application, one skip for each run of numbers that were given up, each applied tick, each import cut to the rows
//! that it added, and last the commands that are still parked (`specs/StraightList.antt`); it leads to the same tables
//! (`straight_laws`).
#![tactic(auto)]

pub use delivery::Delivery;
pub use import_rows::refused_record;
pub use laws::delivered_again_changes_nothing;
pub use reply::Reply;
pub use settling_laws::settling_leaves_what_the_rule_says;
pub use straight_laws::{
    straight_is_same_machine, straight_is_same_tables, straight_uses_no_tolerance,
};

mod delivery;
mod import_rows;
mod laws;
mod reply;
mod settling_laws;
mod straight_laws;
