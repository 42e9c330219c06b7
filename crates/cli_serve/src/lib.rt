//! How are many connections served at once, in one thread?
//!
//! `Connections` takes the connections to a listener, and answers the request of each as soon as it is whole
//! (`panel_http`); no client holds the others up. One that waits for its peer is held (`held`), and let go 5 seconds
//! after it was taken (`connection`). Where the store fails at a request, or the record can't be written, its response is
//! the run's last (`last_response`). What the system gives and takes of a socket is trusted: no contract speaks of it.
#![tactic(auto)]

pub use connections::{Connections, EVENTS};
pub use machine_clock::moment;

mod connection;
mod connections;
mod held;
mod last_response;
mod machine_clock;
mod timed_stream;
