//! The document of an answer: the verdict, its text, when such a text is valid for a model, and
//! that what a valid one says is true, whoever wrote it.
//!
//! Validity is said of bytes: they are the text of a verdict that fits the goal, an assignment that
//! is a solution with the stated values, a ledger whose lines are steps from the lowered model to a
//! last state, and a derivation in the form of LRAT from that state's CNF that shows the verdict.
//! So a checker has nothing to interpret, and truth needs no premise on where a text came from.
//! What shows an optimum is one clause: that no value is better, as an atom of the lowered
//! objective. Two objectives are two derivations, the second over a CNF with one clause more, so
//! that each is an ordinary proof.
//!
//! What it promises: `write_document` gives exactly the text of a document (its one clause).
//! `first_bound`, `second_bound` and `fixed` are the atoms of `specs/BoundAtoms.antt`, made here alone.
//! `claim_law`: what a valid text says is true of the model. `agreement_law`: true answers of one
//! model never contradict each other. `text_law`: a text tells its verdict, assignment, ledger and
//! derivations, so it is a valid answer in one way at most.
//!
//! "Answers" of `docs/FORMATS.md` has the form. `decode_minimize` makes documents, `ledger_check`
//! tests them, and neither sees the other.
#![tactic(auto)]

mod atom_clause;
mod bound_atoms;
mod document;
mod goal;
mod laws;
mod verdict;
mod write;

pub use atom_clause::with_atom;
pub use bound_atoms::{at_least, at_most, first_bound, fixed, integer_named, second_bound};
pub use document::Document;
pub use goal::{has_objective, has_second};
pub use laws::{agreement_law, claim_law, text_law};
pub use verdict::{Bounds, Verdict};
pub use write::{
    push_document, push_ledger, push_proof, push_values, push_verdict, write_document,
};
