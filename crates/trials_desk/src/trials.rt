//! The trials.
mod asking;
mod desks;
mod ends;
mod ends_each;
mod evaluations;
mod gathered;
mod last_number;
mod loopback;
mod members;
mod runs;
mod torn_replays;
mod worked_days;
mod worked_request;
mod written;
