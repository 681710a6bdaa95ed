//! The oracle of the program: what is found at a core by all rules.
//!
//! The compiler of states is generic over an oracle (`fixpoint_queue::Oracle`): it asks it what a core tells, and
//! counts each query. `TableP` is the oracle that the program asks. It tells each instance of each rule, and finds
//! one by a search rule by rule, the cheap ones first: the order of the core's integers and its form as an equality,
//! by `equi_rules`; its form as a sum, a count, a maximum, a product, a division, an order of words or an
//! all-different, by `arith_rules` and `alldiff_rules`; and a truth table of few variables, by `table_rules`. With what
//! the first ones find it gives a run of `equation_runs`.
//!
//! It is a crate of its own, and its search is private. None of the crates that are generic over an oracle lists it, so
//! that what all rules tell of a core is known to them by the oracle alone that they were handed, whose queries are
//! counted. Only the modes of the program and the tests name `TableP`.
#![tactic(auto)]

mod finding;
mod oracle;

pub use oracle::TableP;
