//! The parts of parities, at-most-one, counts, and of sums of two integers: cores that networks
//! stand for.
//!
//! A parity is cut with a fresh variable for its first two members; at-most-one likewise with
//! three; a count is halved, and its halves are added; a sum of two integers is a network of
//! odd-even merging (Batcher, 1968) over their atoms, since true atoms come first and merging two
//! sorted lists adds their lengths. A table of all pairs of values is n times m clauses; a network
//! is some n log n, so it is taken where it is cheaper by `core_cost`. Weights have their common
//! divisor taken out, and an atom stands as often as its weight says.
//!
//! What it promises: `parts` and `parts_from`, which uses the core up, give exactly the parts
//! (`shape`); they stand for the core both ways and are well formed over its variables and the
//! fresh ones (`stand`); fresh variables and costs are at most the cost of a compound core
//! (`parts`). `cut` tells the cut of a long list, in the time of what leaves and comes. Laws:
//! `parts_law`, `compound_law`.
//!
//! That the network adds is `proofs/`: odd places have at most two true atoms more than even ones,
//! so one row of comparators puts all in order. "Parts" of `docs/CORES.md` states every part.
#![tactic(auto)]

mod counts;
mod cuts;
pub mod laws;
mod members;
mod merges;
mod split;
mod units;
mod wires;

pub use cuts::cut;
pub use split::{parts, parts_from};
