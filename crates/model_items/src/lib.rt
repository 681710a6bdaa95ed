//! A model's items, one at a time, in the order of their numbers: its declarations and statements
//! merged again.
//!
//! A model keeps declarations and statements apart, since all that follows asks for one or the
//! other; but weight, lowering and variables go by the order of the text, in which a `bool2int` may
//! declare its integer. So the merge stands here once, as a walk that lends and takes no memory.
//!
//! What it promises: `Items` of some declarations and statements gives exactly their items in
//! order, and a `bool2int` with the integer that it declares as one item (`items`, and the one
//! clause of `next_item`); where the model is in the limits each item is (`limits`).
//!
//! Each call takes constant time. What an item is made into is said by `model_weight` and by
//! `model_lower`, which both walk it; so the weight of a model is counted in the order in which its
//! variables are made.
#![tactic(auto)]

mod items;

pub use items::{Item, Items};
