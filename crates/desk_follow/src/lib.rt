//! What does one hold who follows a record?
//!
//! A `Follower` begins where a record begins, and acts on its deliveries one by one, in memory (`follower`). After any of
//! them it holds the tables that the desk has after these deliveries, and with each value what put it there
//! (`specs/Followed.antt`): it tells a point and the report of a day as the desk does, why a point has its value as
//! `desk why` does, and of all points what each presents, and what put that there.
#![tactic(auto)]

pub use follower::Follower;

mod follower;
