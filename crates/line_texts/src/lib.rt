//! Texts that are read line by line, with exactly one verdict each: the text is whole, or it has
//! one first line that fails, with the cause.
//!
//! A reader of such a text is a relation and a function. The relation says which line may stand
//! next behind what was told so far, and what stands behind it (`next` of the trait `LineTaker`),
//! where a text may end (`ended`), and for which cause a line is not the next (`because`). The
//! function takes one line. `read_lines` is a loop over them, and what it answers is said of the
//! relation alone (`EndsAs`, its one clause); compiled texts and values are read by it. CNFs,
//! proofs and answers have loops of their own, over the same relations and the same record of what
//! was read (`ReadTo`), so all share the proof that a text has one verdict.
//!
//! Its lemmas: where a line leads to one standing alone, a text is whole in one way, has one first
//! line that fails, and never both (`whole_same`, `misfit_same`, `whole_fits`).
//!
//! To read a further kind of text, implement `LineTaker`, and show that a line leads to one
//! standing alone; the values of `dimacs_read` are a short example. Lines are counted from 1.
#![tactic(auto)]

mod ends;
mod reading;
mod taker;

pub use ends::TextEnd;
pub use reading::read_lines;
pub use taker::{LineTaken, LineTaker};
