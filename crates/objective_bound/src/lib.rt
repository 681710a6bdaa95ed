//! The objective of a model that is compiled: its value under truth values, and the atom that says
//! that it is better than a number.
//!
//! Whoever asks a solver for a better solution gives it one clause more, and whoever checks what
//! comes of that has to mean the same clause. So it is made once, for both: the negation of the bound
//! of `answer_document`, from what the names stand for in the clauses, as the last store of the
//! compilation has it. In the order encoding it is one literal, or a constant where the store knows.
//!
//! What it promises: `value_at` is the value that the objective has under truth values, and
//! `better_than` the negation of the bound that an optimum must show (each by its one clause).
//! The lemma `better-truth`: under a valuation by which the names' integers are ordered, the atom
//! is true exactly where the numbers of the names are better.
//!
//! Where two objectives are sought, both functions speak of the first.
#![tactic(auto)]

mod objective;

pub use objective::{better_than, value_at};
