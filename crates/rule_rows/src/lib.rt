//! Rows worked out by hand over the public calls of what one core gives: the equations that the
//! rules state, its parts, and its clauses.
//!
//! They follow the tables "Equations", "Parts" and "Clauses" of `docs/CORES.md` form by form, so
//! that the page, the definitions in `specs/` and the code are three readings of one thing; a lemma
//! shows the last two alike, and these rows the first.
//!
//! They stand apart from those crates, so that proving them proves none of those anew. A rule or a
//! part that is added has its row in the file of its form. Cores and equations are read by
//! `core_words`; each call has one function that takes a row and compares.
#![tactic(auto)]

#[cfg(test)]
mod difference_rows;
#[cfg(test)]
mod encodings;
#[cfg(test)]
mod equations;
#[cfg(test)]
mod form_rows;
#[cfg(test)]
mod max_rows;
#[cfg(test)]
mod network_rows;
#[cfg(test)]
mod part_rows;
#[cfg(test)]
mod product_rows;
#[cfg(test)]
mod splits;
#[cfg(test)]
mod sum_rows;
#[cfg(test)]
mod truth_rows;
