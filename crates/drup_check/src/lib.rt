//! Proofs by reverse unit propagation (DRUP), as other solvers write them: a line adds a clause
//! that those before it show when it is denied and units are propagated (Goldberg and Novikov,
//! 2003; Heule, Hunt and Wetzler, 2013).
//!
//! Such a proof has no hints, so the checker propagates, over `clause_rings`: the same store that
//! the search uses, whose propagation is complete. That a clause is shown is defined without a
//! store, as the least set of literals that has the denied ones and is closed under units.
//! Deletions have no effect on what is accepted: fewer clauses show no more, so a proof that is
//! valid with them is valid without. They are honoured for speed: a deleted clause is no longer
//! watched (`tiers.rt`), and only where a line is not shown without it are all deleted ones put
//! back, and the line tried again. Clauses shown by other causes (RAT) are refused, since they need
//! not be true of every solution.
//!
//! What it promises: `is_shown` is true exactly where the clauses of a store show a clause
//! (`sound`, `shown`), and leaves the trail as it was; `keep` adds one (`kept`). `check_drup` is
//! `Ok` exactly where the bytes are lines that may stand so and show the empty clause (`accepted`,
//! `complete`); else it names the first line that may not, or the one behind the last (`fault`,
//! `exact`). `shown_laws`: a clause that is shown is true where the others are; `proved_laws`: where
//! a text is a proof, no valuation makes the clauses true.
//!
//! Which clause a deletion takes from the watches is found by a sum over its literals, of which
//! nothing is promised (`index.rt`): a clause that isn't found costs time alone. By that sum a
//! clause is found that is watched already: it is counted, so that no watch meets its copies.
#![tactic(auto)]

mod aside;
mod check;
mod copies;
mod fault;
mod index;
mod keeping;
mod laws;
mod shown;
mod store;
mod tiers;
mod words;

pub use aside::{copied, may_leave};
pub use check::check_drup;
pub use fault::DrupFault;
pub use index::ClauseIndex;
pub use keeping::{Kept, keep};
pub use laws::{proved_laws, shown_laws};
pub use shown::{deny_all, is_shown};
pub use words::read_clause;
