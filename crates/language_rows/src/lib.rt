//! Rows worked out by hand over the public calls of the crates of the language: texts with their
//! syntax or fault, models, statements with the assignments under which they hold, and models with
//! their cores.
//!
//! Each line of the table of statements has rows of its own for meaning and lowering, worked out from
//! `docs/LANGUAGE.md` and `docs/CORES.md` and not from the code. The faults of typing, and what
//! statements weigh, the whole program shows: they are transcripts of `bee_rows`.
//!
//! They stand apart from those crates, so that proving them proves none of those anew. Tables are
//! lent and cut by subject, since a table's time to prove grows faster than its rows. A further
//! statement has its row in each of these tables.
#![tactic(auto)]

#[cfg(test)]
mod boolean_lines;
#[cfg(test)]
mod integer_lines;
#[cfg(test)]
mod list_lines;
#[cfg(test)]
mod lowering;
#[cfg(test)]
mod meanings;
#[cfg(test)]
mod models;
#[cfg(test)]
mod reading;
#[cfg(test)]
mod shown;
#[cfg(test)]
mod sum_lines;
#[cfg(test)]
mod typed;
