//! A refutation by another solver, as a derivation with hints.
//!
//! Other solvers write which clauses they learned (DRUP), and answers here want to know why each of
//! them follows (LRAT). The text is judged by `drup_check`; then its lines are taken once more over
//! a store of clauses, and where denying a clause leads to one that is false, the reasons back from
//! there are its hints (as in drat-trim: Wetzler, Heule and Hunt, 2014). Of all lines only those
//! stay that the last one needs, back through the hints. A literal may be assumed, as the one that
//! says that a value is better than the best: where it was used its negation joins the clause, so
//! that the derivation is over the CNF itself, and ends with the negation.
//!
//! What `import_refutation` promises: a text is refused exactly where `check_drup` over the CNF and
//! the assumed literal refuses it, or, where its first line tells that it has hints, `check_lrat`,
//! at the same line (`accepted`, `fault`, `complete`, `exact`). What it gives is an LRAT proof from
//! the CNF, behind which the empty clause or the negation of the assumed literal is known; it
//! deletes nothing, and has no line where the CNF holds the empty clause (`derived`).
//!
//! Nothing is proved of how hints are found (`finder.rt`, `reasons.rt`, `trimming.rt`,
//! `telling.rt`): the lines are taken by the checker of `proof_check` before they are given, and
//! should it ever refuse them, it is as if memory were wanting.
#![tactic(auto)]

mod assumed;
mod finder;
mod import;
mod marks;
mod reasons;
mod refutation;
mod taken;
mod telling;
mod trimming;

pub use refutation::{check_refutation, import_refutation};
