//! From a text to the model that it says, and the first fault of a text that says none that is
//! compiled.
//!
//! Three things can be wrong with a text: its form, its types, its weight; and its length, which is
//! told apart since such a text is not read to its end. Which fault is the first is a relation
//! between texts and faults, so that every mode that reads a model says the same of it and shares
//! the proof.
//!
//! What it promises: `model_of` gives the model that a text says (`model`), or the first fault of
//! the text but its length and weight (`fault`); `held_model` gives it, lowered, only where it is
//! not too heavy, and else its first fault (`model`, `fault`). Lemmas: a text has one first fault,
//! and none where it says a model that is compiled (`one_text_fault`, `no_text_fault`); it has the
//! one or the other (`fault_or_model`), and says one model (`one_model`).
//!
//! The limit of 16,777,216 bytes is `LONGEST_TEXT`. The words of a fault on standard error are
//! those of `docs/FORMATS.md`, "Lines on standard error".
#![tactic(auto)]

mod fault;
mod held_models;
mod model_text;

pub use fault::ModelFault;
pub use held_models::{HeldModel, held_model, lower_fault};
pub use model_text::{LONGEST_TEXT, ModelTextFault, model_of};
