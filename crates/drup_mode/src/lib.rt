//! The mode `drup`: from a CNF as a plain DIMACS text and a proof by reverse unit propagation to
//! whether the proof is valid.
//!
//! A solver that was given clauses with no model behind them is believed by its proof alone. The
//! mode joins `sat_front` and `drup_check` over two texts; the first is read to its end and judged
//! before the second is asked for, so a fault of the CNF is told first.
//!
//! What `drup` promises is the record `DrupMode`: on `Done` the line `ACCEPTED` is written and no
//! values make all listed clauses true; on `Refused(n)` line n of the second text is the first that
//! fails, or the one behind its last where the empty clause is not shown; a CNF with a first fault
//! gives it. `empty_law`: an empty second text, as it is where it has the first one's name, is a
//! proof where the clauses show the empty one by themselves, and else fails at line 1.
//!
//! Why a line is refused (`RefusedProof`) goes into a cell of the caller; no clause speaks of it.
//! What is written is made by `refusal` of `text_modes`, as in each mode that judges a second text.
#![tactic(auto)]

mod fault;
mod laws;
mod making;
mod mode;

pub use fault::RefusedProof;
pub use laws::empty_law;
pub use mode::drup;
