//! The numbers behind a search's budget: Luby's sequence, the stretches between restarts, and the
//! trail read as a binary number.
//!
//! A search ends because the trail, read with a digit for each variable (0 for an entry that has a
//! reason, 1 for a decision or a free place), never rises by propagation or a decision and falls
//! with each clause that is learned. So a stretch of V variables learns at most 2^V clauses. With
//! restarts a stretch may be cut short, but by the sum of Luby's terms (Luby, Sinclair and
//! Zuckerman, 1993) all stretches up to one of 2^V clauses have at most (V+1) * 2^V together. That
//! is how `solve_watched` can promise with which budget it never gives up.
//!
//! What it promises: `stretch_length` is exactly 64 times a term of the sequence, which is defined
//! by the digits of the term's number. `luby_law`: the first 2^(j+1) - 1 terms add up to (j+1) *
//! 2^j. `stretch_law`: stretches that are each shorter than 2^v have, with one more of 2^v clauses,
//! at most (v+1) * 2^v. `trail_law`: an assignment never raises the number (`rises`), it falls
//! where a decision gives way to an entry with a reason (`falls`), and it is below 2^v (`below`).
//!
//! The factor 64 is the one tunable. It may be a smaller power of two: `stretch_law` doesn't hold for
//! 96, say, and from 128 on the `requires` of `stretch_length` lets it reach 2^64.
#![tactic(auto)]

mod laws;
mod luby;

pub use laws::{luby_law, stretch_law, trail_law};
pub use luby::stretch_length;
