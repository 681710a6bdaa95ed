//! Rows over the lines and the checker of proofs: lines as texts, each fault of a line with what it
//! leaves behind, which clauses are known, and two whole proofs that another solver wrote.
//!
//! The foreign proofs show that the definition of LRAT here is the one that others use; nothing
//! that `bee` writes could show it. What a wrong line is refused for is a row for each of its
//! faults, in the order in which they are told.
//!
//! They stand apart from the crates of the solver, so that proving them proves none of those anew.
//! A row is a line of a table, and a line of a proof is written as in a file. The search itself has
//! its rows in `search_rows`, and whole runs over CNFs in `sat_rows`.
#![tactic(auto)]

#[cfg(test)]
mod checks;
#[cfg(test)]
mod clauses;
#[cfg(test)]
mod foreign;
#[cfg(test)]
mod line_texts;
#[cfg(test)]
mod takes;
