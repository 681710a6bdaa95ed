//! The parts of sums, of different members and of orders of words.
//!
//! A sum takes its first two members, and a fresh integer that is their sum goes behind the others;
//! so integers of about equal size are added up, as in a balanced tree. All-different gets a mark
//! for each member and value, at-most-one for each value, and, where there are as many values as
//! members, also a clause for each value: it is implied, but the search would not find it
//! (pigeonholes). An order of words compares the first pair and has the rest as one truth value.
//!
//! What it promises: `parts` gives exactly the parts (`shape`), which stand for the core both ways,
//! are well formed over its variables and the fresh ones, and together cost at most what it cost
//! (`parts`). `parts_from` gives the same of a core that it uses up: lists and integers are taken
//! over. `cut` tells the cut of a long list at its front. Law: `parts_law`.
//!
//! The values of a fresh sum are those that `sums` of `core_forms` gives: the different sums, or a
//! range by the common divisor where that is shorter. So a long chain of fresh sums stays within
//! its cost.
#![tactic(auto)]

mod by_value;
mod cuts;
mod differing;
mod forms;
mod fresh;
pub mod laws;
mod lex;
mod sums;

pub use cuts::cut;
pub use forms::{parts, parts_from};
