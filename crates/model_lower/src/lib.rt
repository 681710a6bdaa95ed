//! From a typed model to cores and a map of names, item by item, up to a weight.
//!
//! The model is weighed first, and one above 67,108,864 is refused before any core is made; behind
//! that no step of the compilation meets a limit. Then a declaration takes variables and makes an
//! entry of the map, a statement makes cores by `statement_lower`, and a `bool2int` that declares
//! its integer makes an entry alone, since the integer is its Boolean's own.
//!
//! What it promises: `lower`, of a model that is lent, and `lower_owned`, which lets each statement
//! go when it is lowered, give exactly the lowered model (`shape`): the assignments that are
//! decoded from valuations that meet all cores are exactly the solutions (`solutions`), and a state
//! may start with its cores (`fits`). They fail exactly where the model is too heavy, with its
//! weight, or memory is wanting (`light`, `heavy`). Laws: `lowering_law`, `weight_law` (variables
//! and costs together are at most the weight).
//!
//! The limit stands in `src/weighing.rt`; a greater one wants the ranges of a state to follow.
#![tactic(auto)]

mod declarations;
mod draft;
mod fault;
mod laws;
mod lowering;
mod owned;
mod state;
mod statements;
mod statements_left;
mod weighing;

pub use fault::LowerFault;
pub use laws::{lowering_law, weight_law};
pub use lowering::lower;
pub use owned::lower_owned;
pub use state::{Lowered, LoweredModel};
pub use weighing::weigh;
