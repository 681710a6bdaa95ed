//! The sixteen forms of constraint to which every statement is lowered: their meaning, how a store
//! trims them, their variables, their costs, and which of them are encoded as they stand.
//!
//! A core is one of these forms over literals and integers in the order encoding; the method of
//! compiling such constraints is that of Metodi and Codish (2012). The forms are one enum and not a
//! trait, so that each law is a case for each form and the compiler of the proof says which is
//! missing. A core takes at most 48 bytes beside its lists, since a model has millions of clauses;
//! that is checked where `Core` is declared. Trimming is in two steps: each atom is replaced by its
//! label, then the form is tidied, so each law is one lemma a step.
//!
//! What it promises: `holds` is the meaning (its one clause); `trim` gives exactly the trimmed core
//! (`shape`), which a valuation that meets the view meets exactly where it meets the core
//! (`meaning`); a core that `is_stable` accepts stays as it is under trimming; `variables` are
//! exactly those that occur, ascending; `few_variables` are exactly those of a core of at most
//! eight; `cost` is exact, and trimming never raises it (`cost_law`). Further laws compose views
//! (`composition_law`, `congruence_law`, `later_trim_law`) and say what stands in a core.
//!
//! A sum's members (`Summands`) know what they add up to, where a machine's number holds it. Where all
//! of a core but its edge stays as it is (`stable_below`), the last member of a sum and the truth of an
//! order of words are all that trimming may change: `settle` has them as a view has them, in their own
//! time, which is what trimming makes (`settled_law`), and `unsettle` gives back what stood there.
//!
//! A core's `Drop` is by hand: only methods of `Core` take one apart (`take_apart`). A further form
//! touches 46 files in eleven crates; `docs/ARCHITECTURE.md`, "How one adds", lists them.
#![tactic(auto)]

mod basic;
mod contents;
pub mod cost_laws;
mod costs;
pub mod edge_laws;
mod edges;
mod equation;
mod few;
mod form;
mod fresh_sums;
pub mod labelled_laws;
pub mod laws;
pub mod list_laws;
mod made;
mod meaning;
mod occurrence;
mod shapes;
pub mod stable_laws;
mod summands;
mod taken;
mod trimming;
pub mod view_laws;
mod word;

pub use basic::is_basic;
pub use contents::Members;
pub use costs::cost;
pub use edges::{Edge, Known, has_own_edge, is_edge_stable, is_literal, stable_below};
pub use equation::{Equation, Rule};
pub use few::{FewVars, few_of_words, few_variables};
pub use form::Core;
pub use fresh_sums::sums;
pub use meaning::{holds, holds_in_row};
pub use occurrence::variables;
pub use shapes::shape;
pub use summands::{Summands, Totals};
pub use taken::Taken;
pub use trimming::{is_stable, trim, trim_int};
pub use word::Word;
