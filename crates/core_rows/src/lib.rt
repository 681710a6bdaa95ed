//! Rows worked out by hand over the public calls of the crates of lists, texts, integers, clauses
//! and forms: numbers, lines and words, integers made and changed, clauses put in order, and of
//! each form its meaning, how it is trimmed, its variables and its cost.
//!
//! They show that the definitions say what is meant, which no proof can, and that calls succeed
//! where memory is there, of which no clause speaks. They stand apart from those crates, so that
//! proving them proves none of those anew.
//!
//! Each call has one function that takes a row and compares, and one test that walks its tables. A
//! row is added as a line of a table; long tables are cut by subject, since a table's time to prove
//! grows faster than its rows. `rt try --test` here runs them without proof.
#![tactic(auto)]

#[cfg(test)]
mod clauses;
#[cfg(test)]
mod costs;
#[cfg(test)]
mod integers;
#[cfg(test)]
mod lists;
#[cfg(test)]
mod meanings;
#[cfg(test)]
mod occurring;
#[cfg(test)]
mod shape_costs;
#[cfg(test)]
mod sums;
#[cfg(test)]
mod texts;
#[cfg(test)]
mod trimmings;
