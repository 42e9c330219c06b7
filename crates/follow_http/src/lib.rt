//! What does one who follows a record answer to a request?
//!
//! To who asks for a point or the report of a day, `answer_view` answers what the desk answers after the deliveries that
//! were followed; to who asks for all points, why a point has its value, or how far the record was followed, what is held
//! of them (`answering`, `views`). What is said to which request is `specs/Seen.antt`. Nothing is delivered: any other
//! request has no route here.
#![tactic(auto)]

pub use answering::answer_view;

mod answering;
mod points_view;
mod views;
