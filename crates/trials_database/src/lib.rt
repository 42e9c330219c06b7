//! The desk over a database whose disk stops or fails at a call (`stop_each`), one of version 1 that is opened on such
//! a disk, tables that are made twice, and rows that are put again and again (`rows_put_again`). What the program shows
//! of both stores is tried on it. There is no code here but tests, so that nothing is proved twice for them.
#![tactic(auto)]

#[cfg(test)]
mod trials;
