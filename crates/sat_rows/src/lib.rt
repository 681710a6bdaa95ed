//! Rows over `sat_front`, `drup_check` and `sat_mode`: which texts list clauses and which are
//! proofs from them, which line of another text fails, and what a search learns and writes.
//!
//! What is learned at a first conflict, with its hints, is worked out by hand and compared to the
//! byte. So a change of the order of decisions makes rows fail although every contract holds: they
//! are then written anew, and show what the change does.
//!
//! They stand apart from those crates, so that proving them proves none of those anew. Each call
//! has one function that takes a row and compares, and a row is a line of a table.
#![tactic(auto)]

#[cfg(test)]
mod proving;
#[cfg(test)]
mod reading;
#[cfg(test)]
mod searching;
