//! The whole compilation: from a typed model to a CNF, a map of names and a ledger, whose
//! satisfying valuations, read by the map, are exactly the model's solutions.
//!
//! The model is lowered (`model_lower`), its cores are brought to the end (`state_compile`), and
//! what the names stand for is trimmed by the last store. That is all that the crate does; its
//! proof is what is worth having: the meaning of a model in the words of `model_meaning` on one
//! side, and clauses on the other. A valuation that satisfies the CNF need not meet the store, so
//! names are read through the store, and each satisfying valuation is a solution.
//!
//! What `compile` promises: the CNF, map and ledger are those of a compilation that the ledger
//! leads through (`compiled`); the solutions are exact (`solutions`, and `compilation_law` for
//! whatever is compiled so); all numbers are in range (`fits`); the counter of steps rises by at
//! most three times the bound of `asking_bound` (`asked`). It fails exactly where the model is too
//! heavy, or memory is wanting (`light`, `heavy`).
//!
//! It is generic over what tells equations, and true for each such oracle; the modes ask all rules.
#![tactic(auto)]

mod compiled;
mod compiling;
pub mod laws;

pub use compiled::Compiled;
pub use compiling::compile;
