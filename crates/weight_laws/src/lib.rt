//! The weight of a statement bounds what the statement is lowered to: laws alone, no code that
//! runs.
//!
//! It stands apart because both sides are proved before they meet: `statement_lower` says which
//! cores a statement has, `model_weight` what it weighs by shapes, and neither needs the other. A
//! change of one of them proves this crate anew and not the other.
//!
//! What it promises (`statement_law`): the fresh variables of a well typed statement and the costs
//! of its cores are together at most its weight (`size`), and exactly its weight where no fresh
//! integer is a linear sum, that is, of each statement but a linear sum that is compared otherwise
//! than by equality (`exact`); and its cores are at most one more than they cost together
//! (`cores`).
//!
//! So a model that is light enough stays within what a state may hold, and no later step of its
//! compilation meets a limit: `model_lower` and all above it lean on this.
#![tactic(auto)]

mod laws;

pub use laws::statement_law;
