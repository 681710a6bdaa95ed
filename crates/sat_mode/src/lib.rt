//! The mode `sat`: from a CNF as a plain DIMACS text to values that satisfy it, or to a proof that
//! there are none.
//!
//! It is `sat_front`, `learning_solver` and a text, with nothing of models; so the solver can be
//! measured and compared with others by itself. The proof is the solver's log, in the form of LRAT
//! over the clauses put in order.
//!
//! What `sat` promises is the record `SatMode` over the relations of `text_modes`: on `Done` the
//! written text tells a value for each variable, which make each listed clause true, or a proof by
//! which the empty clause is known, and then no values make all of them true; on `Unknown(b)` a
//! proof that adds exactly b clauses, b being the budget; each added clause is new, and only added
//! ones are deleted; a text that lists no clauses gives its first fault.
//!
//! How clauses are searched is `SearchOptions` of `search_options`, from the words. "What `bee sat` writes" of
//! `docs/FORMATS.md` has the form of the texts.
#![tactic(auto)]

mod making;
mod mode;
mod writing;

pub use mode::sat;
