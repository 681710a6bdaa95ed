//! The way back: from truth values for the last state of a compilation to the numbers of the
//! declared names.
//!
//! An equation leaves a variable free that another one stands for, so values are read by the store:
//! each name's atom or integer as the last view has it. A map that was trimmed already is read the
//! same way by `name_map`; this crate is for a caller who has the store and no trimmed map, and has
//! the law for both.
//!
//! What it promises: `decode` gives exactly the number that each declared name has under truth
//! values that a view reads, where integers fit 64 bits (its one clause). `decoding_law`: at the
//! end of a compilation, what a model's names have under the valuations that satisfy the CNF, read
//! by the last view, are exactly the solutions, and their integers fit.
//!
//! The law is what answers, compiled texts and `bee decode` have in common; a change of the store's
//! defaults in `order_ints` comes to light here first.
#![tactic(auto)]

mod decoding;
pub mod laws;
mod reading;

pub use decoding::decode;
pub use reading::StoreReading;
