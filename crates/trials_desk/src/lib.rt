//! The desk and requests to it, as calls: a run of deliveries, the loopback, and the worked request in any two pieces,
//! cut, and with a reply that is lost after each byte, over tables in memory and in a database; with each of its reads
//! failing (`ends_each`); the same request gathered from an input that has nothing yet now and then; a replay whose reader
//! or writer fails; the last number of a panel, planned as a call; how often schedules are evaluated (`evaluations`); and
//! that a command of the usual form is read in one pass, which no contract says. What each request gets is tried on the
//! program. There is no code here but tests, so that no other crate is proved twice for them.
#![tactic(auto)]

#[cfg(test)]
mod trials;
