//! The vocabulary of the whole compiler: literals, atoms, clauses, views, and integers in the order
//! encoding.
//!
//! An integer is a base and a list of steps, each an atom and a weight; its value is the base plus
//! the weights of the true steps, and it is ordered where no true step follows a false one. Then
//! "at least v" is one atom, and so bounds, comparisons and sums are short clauses (order encoding:
//! Crawford and Baker, 1994). With a variable for each value a comparison would cost a clause for
//! each pair of values. Steps have weights, so domains with gaps and Booleans with coefficients
//! need no variables of their own. A view gives each variable an atom, its label; atoms are
//! resolved by it.
//!
//! What it promises: each call on integers gives exactly the stated integer (`shape`), with its
//! value and order under every valuation (`value`, `ordered`); `at` is true on an ordered integer
//! exactly where the value is at least v (`meaning`); a `Walk` tells these atoms upwards or
//! downwards. `ordered_clause` gives a clause put in order, or that it is always true;
//! `first_false` finds the first false clause. Laws: `order_laws`, `negation_law`, `agreement_law`,
//! `parts_law`, `view_law`, `bound_law`, `order_law`, and of views whose labels label themselves
//! `label_law`, `own_labels_law`, `later_law`.
//!
//! Types are plain data with public fields, and their ranges are conditions of the calls. Truth
//! past the end of a list of values is `false`, and a view gives a variable past its end itself;
//! many laws lean on these two defaults. Everything above stands on this crate.
#![tactic(auto)]

mod atom;
mod cnf;
mod cnf_laws;
mod cnf_order;
mod cnf_truth;
mod holds;
pub mod label_laws;
mod literal;
mod order_int;
pub mod order_laws;
mod truth_values;
mod view;

pub use atom::Atom;
pub use cnf::Cnf;
pub use cnf_laws::{agreement_law, bound_law, negation_law, order_law, parts_law, view_law};
pub use cnf_order::ordered_clause;
pub use cnf_truth::{first_false, is_clause_true};
pub use literal::Lit;
pub use order_int::{Levels, MapValue, OrdInt, Walk};
pub use truth_values::{TruthRow, TruthValues};
pub use view::{label_of, resolve};
