//! The lines of a ledger, and the words of literals and atoms that every text of the house shares.
//!
//! A ledger is the list of steps from a lowered model to its clauses: an equation with its rule and
//! two atoms, the splitting of a core, its encoding, each naming a core by its id. It is what makes
//! a compilation checkable by whoever reads it. A line names the rule and the two atoms, so a
//! checker tests one instance and need not search; it does not name the parts or the clauses, which
//! follow.
//!
//! What it promises: `push_literal`, `push_atom`, `push_step` and `write_step` give exactly the
//! text of a literal, an atom, a line; `read_literal`, `read_atom` and `read_step` are `Some(x)`
//! exactly where the bytes are the text of x with variables up to 2^27 (`read`, `complete`). So
//! what is written is read, and a text tells its line.
//!
//! The form is that of "Ledger lines" in `docs/FORMATS.md`, and of every ledger that was ever
//! written: a further kind of line may be added, and none may change its meaning. What a line does
//! to a state is said by `step_kernel` alone.
#![tactic(auto)]

mod line;
mod steps;
mod words;

pub use line::Line;
pub use steps::{push_step, read_step, write_step};
pub use words::{push_atom, push_literal, read_atom, read_literal};
