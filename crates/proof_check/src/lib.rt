//! Proofs in the form of LRAT: their lines, what a proof is, a checker that takes lines one by one,
//! and their text.
//!
//! A line adds a clause with the ids of the clauses by which unit propagation refutes its denial,
//! or deletes clauses (LRAT: Cruz-Filipe, Heule, Hunt, Kaufmann and Schneider-Kamp, 2017). With
//! hints a line costs the literals of the clauses that it names, and no search; that is why solver
//! and documents of answers write this form, and `drup_check` is the one for proofs without hints.
//! Additions that only keep satisfiability are read and never accepted, since a proof here must say
//! what is true of every solution. `take_line` is the definition: a function of the proof so far
//! and a line, with the first fault in the order of the tests; `Lrat` is its fold.
//!
//! What it promises: `take` of a `Checker` is `Ok` exactly where the line continues a proof
//! (`taken`), else its first fault (`fault`), and a refused line leaves the checker as it was
//! (`refused`). What acceptance implies is `implied_laws`: each valuation that satisfies the CNF
//! satisfies every clause that is known. `write_line` and the readers are exact inverses (`read`,
//! `complete`, `text_laws`); `LineRoom` reads line after line into the same room.
//!
//! Clauses stand in one list of literals with a table of 24 bytes a clause; a deleted one stays,
//! marked, since it is still known. Ids may skip, so a live clause is found by halving.
#![tactic(auto)]

mod arena;
mod checker;
mod deletion;
mod fault;
mod hints;
mod laws;
mod line;
mod read;
mod spelling;
mod standing;
mod values;
mod write;

pub use checker::Checker;
pub use fault::{ProofFault, ProofTextFault, TakeFault};
pub use laws::{implied_laws, proof_laws, text_laws};
pub use line::ProofLine;
pub use read::{LineHead, LineRoom, read_line};
pub use standing::Standing;
pub use write::{push_addition, push_deletion, push_line, write_line};
