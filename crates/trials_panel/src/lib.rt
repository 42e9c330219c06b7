//! A panel's end, as calls, with ample memory: the exchange over a bad network of `docs/PANELS.md`, the window, a lost
//! journal, a desk that was restored, and the last number; and the lines of its journal. There is no code here but
//! tests, so that no other crate is proved twice for them.
#![tactic(auto)]

#[cfg(test)]
mod trials;
