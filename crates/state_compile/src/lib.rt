//! A state brought to the end of its compilation: from cores to clauses. It knows nothing of
//! models.
//!
//! Equations to the fixpoint; then the least compound core is split and its parts are saturated,
//! while there is one; then each core is encoded, the least first. Equations come first because
//! each makes two variables one everywhere, and everything behind it smaller; and again behind each
//! split, because small parts tell what the whole did not. Nothing is asked behind an encoding,
//! which makes no core.
//!
//! What it promises of `compile_state`: the ledger leads by steps from the first state to the last
//! one (`leads`), in this order, whatever oracle is asked (`compilation`); the valuations that
//! satisfy the CNF of the last state and meet its store, cut to the first variables, are exactly
//! the models of the first state, and where a contradiction was found there are none (`models`);
//! and the counter rises by at most three for each query that may be made (`asked`). Laws:
//! `compilation_law` (the same of any ledger in this order), `reading_law` (also a valuation that
//! only satisfies the CNF is a model, read through the store).
//!
//! That splitting ends is `proofs/Sizes.antt`, by the costs and members of `core_parts`. Lines,
//! parts and clauses depend on nothing but the cores, so a compilation gives the same bytes each
//! time.
#![tactic(auto)]

mod compiled;
mod compiling;
mod encoding;
pub mod laws;
mod splitting;

pub use compiled::CompiledState;
pub use compiling::compile_state;
