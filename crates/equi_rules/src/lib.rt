//! The rules Order and Form for clauses, parities, conjunctions, at-most-one and comparisons: which
//! two atoms such a core makes equal.
//!
//! This is Boolean equi-propagation (Metodi, Codish, Lagoon and Stuckey, 2011): a core tells that
//! two literals are equal, or one is constant, and they become one variable before anything is
//! encoded. Unit propagation on clauses would find only constants, and after the encoding. The
//! rules are those that a walk along the core finds, so a query costs the size of the core; the
//! complete ones of a core of few variables are in `table_rules`.
//!
//! What it promises: `find` gives exactly the first equation of two different atoms by the order of
//! each integer or by the form (`shape`); it is an instance and implied (`instance`, `implied`),
//! `None` comes exactly where there is no instance (`none`), and one step is counted (`steps`).
//! `find_plain` promises the same of a plain core and does not look at its integers, and `find_last`
//! of a core that is plain but for the last integer of a sum, at which alone it looks. `is_instance`
//! is exactly whether an equation is one. Laws: `implied_law`, `atoms_law`.
//!
//! The lists stand in `specs/` in the order of the table "Equations" of `docs/CORES.md`, which the
//! ledgers of users depend on: an equation taken away here makes old ledgers invalid.
#![tactic(auto)]

mod atoms;
mod comparison;
mod equality;
mod instances;
pub mod laws;
mod order;

pub use instances::{find, find_last, find_plain, is_instance};
