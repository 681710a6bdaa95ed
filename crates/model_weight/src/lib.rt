//! The weight of a model: its variables and the costs of the cores that it is lowered to, by the
//! shapes of its integers alone.
//!
//! What a model may cost is known before anything of it is made, so one that is far too large is
//! refused at once, with its weight. A limit on clauses while they are written would end a run half
//! way, and where would depend on the compiler; the weight is a property of the model, which a user
//! can work out.
//!
//! What it promises: `weight` is exactly the weight of a model within the limits (`weight`), and
//! the weight itself, not 2^128 - 1, where declarations, statements and members together are fewer
//! than 2^45 (`exact`); `item_weight` is that of one item. Laws: `fits_law` (such a model weighs
//! less than 2^128), `queue_law` (narrower members weigh no more).
//!
//! It counts by the declared domains, so a bound that is known belongs into `new_int`. A fresh sum
//! counts with the lesser of its pairs of values and its span by the common divisor, which is a
//! bound. "Costs" of `docs/CORES.md` says how each statement is counted; `weight_laws` that this
//! bounds what is made.
#![tactic(auto)]

mod arrays;
mod comparisons;
mod items;
mod laws;
mod linear;
mod lines;
mod lists;
mod members;
mod operations;
mod orders;
mod pairs;
mod shapes;

pub use items::{item_weight, weight};
pub use laws::{fits_law, queue_law};
