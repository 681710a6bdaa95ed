//! The rule Table: every equation that a core of at most eight variables implies, whatever its
//! form, by all valuations of its variables.
//!
//! Rules by form miss what follows from several facts at once; on a small core all of it is had by
//! trying 256 rows at most. `find` keeps the equations that no row so far refutes, and ends at the
//! row that leaves none: so a core that implies nothing is judged by a few rows, and each row is
//! evaluated once. With more variables the rows grow too many, and the rules by form alone remain.
//! Of a long order of words over few names, which is split at its front many times, `words` first tries
//! whether a look at its first pairs, and along the rest only in rows that these leave open, shows that it
//! implies nothing.
//!
//! What it promises: `is_instance` is exactly whether the core implies an equation of two different
//! atoms over its variables; that the test over rows says what is meant over all valuations is
//! `exact_law`. What `find` gives is an instance (`instance`) and implied (`implied`), and it gives
//! nothing exactly where there is no instance (`none`); it counts one step (`steps`). Law:
//! `atoms_law`.
//!
//! The order in which equations are tried is part of the ledger's bytes. The eight is
//! `few_variables` of `core_forms`: one more variable doubles the rows.
#![tactic(auto)]

mod instances;
pub mod laws;
mod pairs;
mod rows;
mod words;

pub use instances::{find, is_instance};
