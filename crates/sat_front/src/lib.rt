//! Reads a CNF from a plain DIMACS text, as `bee sat` and `bee drup` are given one.
//!
//! Clauses may stand over several lines, the number of clauses on the `p` line is not trusted, and
//! a line `%` ends the text, as in the old benchmark files. The clauses are put in order and each
//! stands once, so the ids of a proof count what remains. It is read line by line over
//! `line_texts`, and is the shortest reader to learn that by.
//!
//! What it promises: `read_cnf` is `Ok` exactly where the bytes are a plain DIMACS text, and then
//! gives its clauses put in order (`read`, `complete`); else it names the first line that does not
//! fit, exactly that one (`fault`, `exact`), or memory is wanting. `literal_within` is exactly the
//! literal that a word spells within a number of variables; `cut_line` the first line of a text
//! whose last one may lack its line feed. `read_laws`: the CNF is as true as the listed clauses
//! under every valuation, its variables are in range, and in each clause they ascend.
//!
//! Which line may stand next is `specs/CnfLines.antt`; the form is "Plain CNFs" of
//! `docs/FORMATS.md`.
#![tactic(auto)]

mod cnf;
mod draft;
mod fault;
mod laws;
mod literals;
mod open_lines;
mod text_fault;
mod words;

pub use cnf::read_cnf;
pub use fault::CnfFault;
pub use laws::read_laws;
pub use literals::{atoms_of, literal_within};
pub use open_lines::cut_line;
pub use text_fault::{CnfTextFault, LONGEST_TEXT};
pub use words::is_word;
