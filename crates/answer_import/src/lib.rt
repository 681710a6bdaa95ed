//! What another solver found about a model's clauses, as an answer to the model.
//!
//! A solver that is asked for the clauses of `bee compile` answers with values, with a refutation,
//! or, where an objective is sought, with values and a refutation of the clauses and that it is
//! better. Nothing of it is believed. The text is cut before the first line of a refutation
//! (`cut.rt`); the values before it are tested against the clauses (`dimacs_read`) and give the value
//! of the objective; the refutation, with hints or without, is checked and becomes a derivation
//! (`proof_import`). With the ledger of the compilation this is the document of an answer, and the
//! whole document goes through `ledger_check` before it is given, so that its truth rests on the
//! checker of answers alone (a certifying algorithm: McConnell, Mehlhorn, Naeher and Schweitzer,
//! 2011).
//!
//! What `import_answer` promises (`IsImport`): where it gives an answer, the bytes are a valid one
//! to the model, whose verdict is true, and is what the text shows; where it gives a line, this is
//! the first of the text that fails, or the one behind its last where nothing is shown. Else
//! memory is wanting. Each text has one such end (`finding_laws`), so that one which shows an answer
//! is never refused (`complete`), and another one always, at its line (`exact`).
//!
//! A further kind of line is a case of `LineKind`, and of `Fronts.antt`.
#![tactic(auto)]

mod cut;
mod importing;
mod judging;
mod laws;
mod refuting;

pub use importing::{Imported, import_answer};
pub use laws::finding_laws;
