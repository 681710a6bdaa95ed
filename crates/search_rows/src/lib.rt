//! Rows worked out by hand and at random over the public calls of the clause store, the analysis of
//! conflicts, and a search that is asked once or again.
//!
//! Moves of the store are compared with a plain program that looks at every clause after each move;
//! searches in no order with the trying of all valuations; logs with the checker, restarts and
//! deletions counted in them; and what a watcher was told with the log. So what no clause says, as
//! that learned clauses go at restarts, is seen here and nowhere else.
//!
//! They stand apart from those crates, so that proving them proves none of those anew. Moves at
//! random come from a generator with fixed seeds (`numbers`), so a failure comes again.
#![tactic(auto)]

#[cfg(test)]
mod analysing;
#[cfg(test)]
mod asking_again;
#[cfg(test)]
mod assuming;
#[cfg(test)]
mod bench;
#[cfg(test)]
mod moves;
#[cfg(test)]
mod numbers;
#[cfg(test)]
mod pieces;
#[cfg(test)]
mod plain;
#[cfg(test)]
mod random_moves;
#[cfg(test)]
mod starting;
#[cfg(test)]
mod stores;
#[cfg(test)]
mod valuations;
#[cfg(test)]
mod watching;
#[cfg(test)]
mod words;
