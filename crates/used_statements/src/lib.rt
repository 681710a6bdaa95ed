//! Which statements of a model its refutation used, for whoever seeks a part of the model that has no
//! solution either. Nothing is promised, since such a part is asked about anew before it counts.
//!
//! The hints of a derivation lead from the empty clause back to clauses of the CNF (`refutation`); the
//! ledger's lines are made again, so that each clause is known to be of an encoding, and each label of
//! a variable of an equation (`origins`). From the last line back, a line that is needed needs those
//! before it by which the variables of its core came to their labels; where the ledger ends in a
//! contradiction, its last line is the one that is needed. What a split makes counts as the lowered
//! core that it comes from, so a core needs a little more than it may, and never less. Lowered cores
//! stand in the order of their statements, which have so many by the table of statements
//! (`core_counts`). A `bool2int` that declares its integer has none, and is used where its Boolean
//! occurs.
//!
//! Each line is walked once, and each variable's chain of labels up to the first that was walked.
#![tactic(auto)]

mod core_counts;
mod origins;
mod refutation;
mod used;

pub use used::used_statements;
