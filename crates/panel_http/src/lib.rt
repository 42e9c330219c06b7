//! What does one request to the desk get, and leave?
//!
//! `serve_one` reads one request by the table of routes that it is lent, makes its delivery or looks at what it asks
//! for, and writes one response. What is answered to a request, and which tables are left, is `specs/Answers.antt`, over
//! the definitions of `deliveries`; what the bytes of an input get, whatever fails, `specs/Serving.antt`.
//!
//! Where an input gives its bytes now and then, `gather` puts them behind what has come until that is a whole request,
//! and hands on what it asks. `serve_request` serves that, by the same clause, and `serve_come` the bytes themselves,
//! where they lie.
//!
//! A request's head (`specs/Heads.antt`) has a method, a target and fields: the first two ask a `Route` of
//! the table (`Routes::find`, `specs/Routes.antt`), the fields say how long the body is (`body_length`,
//! `specs/BodyLength.antt`; RFC 9112, section 6, in this profile one plain length or none), and `route_asked` puts both
//! together. Then the body comes, and by the route it is the `Request` (`request_to`,
//! `specs/RequestBody.antt`), or the input is refused (`Refusal`). What the bytes of an input ask is
//! `specs/Requests.antt`: the first case that holds. `lacking` answers, for the bytes that have come, how many are
//! waited for yet (`specs/Whole.antt`), `request_in` what bytes ask that have come whole, and `request_come` does both
//! at once (`specs/Come.antt`). `Counted` hands on what a reader or a writer does, and counts what failed
//! (`specs/Counting.antt`).
//!
//! A response has a status and a body with its type, and its text is made of them (`specs/Response.antt`,
//! `specs/Responses.antt`): a reply to a delivery, the refusal of a request or of a holiday list, a point or a report.
#![tactic(auto)]

pub use counted_end::Counted;
pub use gathering::{Gathered, gather};
pub use http::StatusCode;
pub use looking::state_response;
pub use point_text::{no_point_response, point_response};
pub use refusal::Refusal;
pub use refusals::refusal_response;
pub use reports::{no_day_response, report_response};
pub use request::Request;
pub use route_laws::each_route_is_found;
pub use routes::Routes;
pub use served::Served;
pub use serving::{serve_come, serve_one, serve_request};
pub use status_laws::each_status_has_its_phrase;
pub use unanswered::Unanswered;
pub use view::View;
pub use whole_input::request_in;
pub use whole_response::{ContentType, Response, respond};
pub use writing::write_answer;

mod answering;
mod asked_route;
mod beginning;
mod bodies;
mod come;
mod content_length;
mod counted_end;
mod field_values;
mod fixed_texts;
mod gathering;
mod limits;
mod looking;
mod panel_bodies;
mod point_text;
mod refusal;
mod refusals;
mod replies;
mod reports;
mod request;
mod route;
mod route_laws;
mod route_request;
mod routes;
mod served;
mod serving;
mod status_laws;
mod text_writing;
mod unanswered;
mod untaken;
mod view;
mod whole;
mod whole_input;
mod whole_response;
mod writing;
