//! All rules as one: what the crates of rules state of a core, tested.
//!
//! The crates of rules know nothing of one another, so a form's rules can be proved, changed and
//! checked alone; this crate joins them by cases on the form and is small. It has the test and its
//! laws; the search stands in `rule_oracle`, which nobody who is generic over an oracle lists. A
//! body that tries equations by the test finds instances too, in more time, but not that its oracle
//! tells none.
//!
//! What it promises: `is_instance` is exactly whether an equation is an instance of its rule at a
//! core (its one clause). `instance_law`: an instance is implied by a well formed core, its two
//! atoms are different, and at a core as a store has it they are labels of the store. `FoundRun` is
//! what an oracle answers: an equation, and a run of others that is told in its turn.
//!
//! A new crate of rules is joined here by a word in `specs/Instances.antt` and `src/instances.rt`,
//! and its laws in `proofs/InstanceLaws.antt`; its place in the search is in `rule_oracle`
//! (`docs/ARCHITECTURE.md`, "How one adds").
#![tactic(auto)]

mod found;
mod instances;
pub mod laws;

pub use found::FoundRun;
pub use instances::is_instance;
