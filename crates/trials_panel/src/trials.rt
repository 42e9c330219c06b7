//! The trials.
mod exchange;
mod journals;
mod lines;
mod panels;
mod windows;
