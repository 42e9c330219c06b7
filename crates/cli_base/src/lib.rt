//! Where does a record begin?
//!
//! A record may stand on a base: the tables as they were at rest when the record began. `read_base` reads them into memory,
//! and changes nothing of what it reads. `desk_on` opens a desk over them, or over empty tables where there is no base: a
//! record's deliveries are made to it. What a base has is said by a list of earlier deliveries (`specs/Base.antt`).
#![tactic(auto)]

pub use opening::desk_on;
pub use reading::{Base, BaseFault, read_base};

mod opening;
mod reading;
