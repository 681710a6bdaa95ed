//! The cores of a statement, line by line of the table of statements.
//!
//! A statement speaks of declared names, each of which stands for an atom or an integer; its cores,
//! over these and over fresh variables, stand for its being true. Lowering is kept apart from
//! decomposition: a statement becomes the largest forms that say it, and what is split, and how, is
//! the concern of the compiler, once equations have made cores smaller. A sum that stands in
//! another relation than equality is added up here by fresh integers, since the forms have sums by
//! equality alone.
//!
//! What it promises: `made_of` gives exactly the cores of a statement and the number of variables
//! behind its fresh ones (its one clause). `line_law`: each valuation that meets the cores makes
//! the statement true, and each that makes it true can be changed at the fresh variables so that it
//! meets them. `variables_law`: variables never become fewer. `meaning_law`: the words of
//! statements and of cores for sums, maxima, order and counts say the same.
//!
//! The laws of a line are put together from few steps: a fresh atom or integer that names
//! something, then cores that say the statement of what was named (`proofs/LowersLaws.antt`).
//! "Lowering" of `docs/CORES.md` has the whole table.
#![tactic(auto)]

mod boolean_lines;
mod compared_sums;
mod fresh;
mod integer_lines;
mod laws;
mod linear_lines;
mod list_lines;
mod lowering;
mod made;
mod pair_lines;
mod statements;
mod summands;
mod terms;

pub use laws::{line_law, meaning_law, variables_law};
pub use made::MadeCores;
pub use statements::made_of;
pub use terms::atom_of;
