//! The mode `bound`: from the text of a model and a number to its compiled text with one clause
//! more, that the objective is better than the number.
//!
//! So another solver is asked for a better solution than one that is known, without a word of its
//! own about objectives: it gets clauses. Values that it finds are a better solution (`decode`
//! takes the text as any compiled one); a refutation, behind the values that are known, makes them
//! an optimum (`certify`, which means the same clause: both take it from `objective_bound`).
//!
//! What `bound` promises is the record `BoundMode`: on `Done` the written text is whole, and the
//! assignments that it stands for are exactly those solutions of the model whose objective is
//! better than the number (of two objectives, the first); a text that says no such model gives its
//! first fault, and one that says a model without an objective gives that (`BoundFault`). Each text
//! has one end, so what is told of a text is that end, or memory is wanting.
//!
//! All that the mode does is `bounded`; the compiler and the text are those of `compile_mode`.
#![tactic(auto)]

mod fault;
mod making;
mod mode;

pub use fault::BoundFault;
pub use mode::bound;
