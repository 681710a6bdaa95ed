//! A CNF from clauses that come one at a time: each is put in order by a view, and each stands
//! once.
//!
//! Repeated clauses are found by one hash set with a fixed hash, in the order of insertion; the
//! clauses go into it at the end, so that it has room for all from the start and never hashes anew.
//! Sorting all clauses would lose their order, by which they have their ids. The hash is mixed from
//! the signs and from how far the other variables are from the first one, and the first one's place
//! in its block of 32 is added. So the clauses of one integer's order lie side by side in the
//! index; spread over all of it each would wait for memory. It is near-linear unless an input is
//! chosen against that hash.
//!
//! What it promises of `OrderedClauses`: what comes is put in order (`added`, `refused`), and what
//! is given has each clause once (`distinct`, `clauses`), is as true as what came under every
//! valuation that meets the view (`same_truth`), over the same variables (`vars`, `in_range`).
//!
//! The hash may be changed: what is promised of `OrderedClauses` does not name it. `step_kernel`
//! and `sat_front` use the crate.
#![tactic(auto)]

mod distinct;
mod hash;
mod ordered;

pub use ordered::OrderedClauses;
