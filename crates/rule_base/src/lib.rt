//! What all rules share: the counter of their steps, the search along the equations that a rule
//! states of a core, and what such equations say.
//!
//! A rule states a list of pairs of atoms, joined of shorter lists, and is implemented once:
//! `SoughtEquation` says what is looked for, one of two different atoms or a given pair in either order,
//! and the same walk finds an equation and tests one. So that what is found is an instance, and
//! that nothing is found where there is none, is proved here for all rules and nowhere again.
//!
//! `Steps<L>` counts the queries of a ledger `L`. Only `tick` adds 1 to it, and a body that is
//! generic over `L` can open no second counter of that ledger; so what `compile` promises of the
//! number of queries can't be evaded by asking on another counter.
//!
//! What it promises: the search gives exactly the first pair that is sought (the one clause of each
//! call). Laws: `found_law`, `implied_law` (what a rule states is implied where each pair is
//! equally true), `atoms_law` (what holds of a core's atoms holds of an instance's).
//!
//! A new rule is a list in the `specs/` of its crate, and a walk over `SoughtEquation`.
#![tactic(auto)]

mod constant;
pub mod laws;
mod sought;
mod stated;
mod steps;

pub use constant::is_constant;
pub use sought::SoughtEquation;
pub use stated::next;
pub use steps::Steps;
