//! The model of a pseudo-Boolean file, as a value and as a text.
//!
//! A file speaks of variables by their numbers, so its model is made without a name being looked up: the Boolean of the
//! variable i is the declaration at place i - 1, each constraint is one statement, and the objective is an integer,
//! `o`, which a statement makes the sum of the objective. Every variable up to the greatest index is declared, also one
//! that stands nowhere, so a file that uses x1000000 alone has a million declarations; they are made in linear time.
//!
//! What it promises: `opb_model` gives the model that `specs/Models.antt` states (`model`), and `model_text` the
//! canonical text of its items (`specs/Items.antt`) where that is no longer than it may be, and none where it is
//! (`text`, `long`). Laws: `text_law`, that text says exactly this model, so whoever reads it has the same one;
//! `solutions_law`, the model's solutions are exactly the assignments that satisfy the file as `opb_front` says what it
//! means, each once, with what they cost.
//!
//! The text is written without the items being made. Its writing stops behind the first constraint with which it is too
//! long, so that it takes little more memory than the limit. That the model is well typed and in the limits follows
//! from its text, by what `model_texts` knows of any text.
#![tactic(auto)]

mod declarations;
mod laws;
mod model;
mod statements;
mod text;
mod text_parts;

pub use laws::{solutions_law, text_law};
pub use model::opb_model;
pub use text::model_text;
