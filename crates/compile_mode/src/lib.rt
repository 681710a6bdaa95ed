//! The mode `compile`: from the text of a model to its compiled text.
//!
//! The model is read item by item and each statement let go when it is lowered, so that neither its
//! syntax nor its statements stand whole beside its cores. All rules are asked for equations. The
//! whole text is made before a byte of it is written, so a fault before leaves the sink untouched.
//!
//! What `compile` promises is the record `CompileMode`: on `Done` the text read says a well typed
//! model that is not too heavy, the written text is whole, its ledger leads from the lowered model
//! step by step, and the assignments that it stands for are exactly the model's solutions; a text
//! that says no such model gives its first fault. `answer_law`: each text has one end, so what is
//! told of a text is that end, or memory is wanting.
//!
//! `compile_model` and `write_compilation` are its two halves, for the modes that ask a solver for
//! more than the model says, or import what one found. The meaning of the text is that of
//! `dimacs_out`; what is sought of a solution is no part of it, but that each objective is a
//! declared integer.
#![tactic(auto)]

mod entries;
mod laws;
mod making;
mod mode;

pub use laws::answer_law;
pub use making::{compile_model, write_compilation};
pub use mode::compile;
