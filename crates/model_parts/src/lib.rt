//! A model with a part of its statements: what it means, what it weighs, and statements that move
//! between the part and what is left out.
//!
//! Why a model has no solution is told by a part of its statements that has none. So the same model
//! is asked again and again, each time with other statements left out. A part is the list of its
//! statements' numbers, which stay as the model has them; the declarations stay, too, so that an
//! assignment of the one is one of the other. Statements are never copied: a divided model owns
//! them all, and a choice moves each to its side, in time linear in their number.
//!
//! What it promises: `choose` keeps the divided model that of the same model (`divided`), and puts
//! on its sides exactly what is marked (`marks`); `part_law` says that its part is the model with
//! the statements that it has left. Laws of parts, in `part_law` too: they are well typed and in
//! the limits where the model is; their solutions are the assignments in the domains for which
//! their statements hold; where all but one statement hold, each part without it does. `core_weight`
//! is the model's weight and one for each `bool2int` that declares its integer, and no part weighs
//! more; `weight_above` tells it where it is too great.
//!
//! `first_broken_but` is what a witness is tested by. Nothing here knows how a model is solved.
#![tactic(auto)]

mod divided;
mod laws;
mod moving;
mod tested;
mod weighing;

pub use divided::DividedModel;
pub use laws::part_law;
pub use tested::first_broken_but;
pub use weighing::{core_weight, weight_above};
