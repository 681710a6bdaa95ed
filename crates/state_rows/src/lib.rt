//! Rows over the public calls of the crates whose values change in place: nodes moved between
//! rings, classes merged and walked, occurrences that are handed on, and the steps of a compilation
//! with their faults, refused memory, and the lines of a ledger that tell them.
//!
//! Moves of rings and merges of classes are also tried at random, beside a plain reckoning; and a
//! worklist is asked with all rules, with none, and with one equation that is told once. Three things
//! are shown here alone, since their clauses allow less: that a long list is cut, that a stable core
//! is lent as it stands (`lent`), and how many queries there are (`questions`).
//!
//! They stand apart from those crates, so that proving them proves none of those anew. A row is a
//! line of a table; cores are read by `core_words`. A store that lives across a test is lent to
//! functions of its own: dropped at each way out, it made a test of twenty lines take a minute.
#![tactic(auto)]

#[cfg(test)]
mod classes;
#[cfg(test)]
mod compilations;
#[cfg(test)]
mod ledger_lines;
#[cfg(test)]
mod ledgers;
#[cfg(test)]
mod lent;
#[cfg(test)]
mod numbers;
#[cfg(test)]
mod occurrence_lists;
#[cfg(test)]
mod questions;
#[cfg(test)]
mod rings;
#[cfg(test)]
mod runs;
#[cfg(test)]
mod saturations;
#[cfg(test)]
mod starts;
#[cfg(test)]
mod state_text;
#[cfg(test)]
mod step_faults;
#[cfg(test)]
mod steps;
#[cfg(test)]
mod steps_made;
#[cfg(test)]
mod told_once;
