//! Proofs with hints (LRAT), as other solvers write them: a line adds a clause under an id, with the
//! ids of the clauses that show it (Cruz-Filipe, Heule, Hunt, Kaufmann and Schneider-Kamp, 2017).
//!
//! `proof_check` takes such lines too, as documents of answers have them: each hint unit in turn,
//! and the last one false. Solvers are less strict, since their own checkers are: a hint may tell
//! nothing, and what stands behind the false one is not looked at. So this crate defines which
//! hints show a clause (`specs/Hints.antt`), and what it gives are the hints that were used. As with
//! proofs without hints, deletions have no effect on what is accepted, and lines by resolution
//! asymmetric tautologies (negative hints) are refused. Ids need not be consecutive: each is found
//! by a hash, and the hints that are given count the clauses of the CNF and then the lines.
//!
//! What it promises: `check_lrat` gives lines exactly where the text is a proof from the CNF, and
//! else the first line that fails, or the one behind the last (`IsLratEnd`), of which a text has one
//! alone (`answer_laws`). `is_lrat_text` tells a text with hints from one without by its first line.
//! Nothing is promised of the lines that are given: who takes them has them checked.
#![tactic(auto)]

mod check;
mod follow;
mod joined;
mod kind;
mod laws;
mod standing;
mod store;

pub use check::{LratEnd, check_lrat};
pub use kind::is_lrat_text;
pub use laws::answer_laws;
pub use store::HintedLine;
