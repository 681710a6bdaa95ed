//! The parts of all compound forms as one, and that splitting ends.
//!
//! Sums, different members and orders of words are parts of `decompose`, the others of
//! `network_encode`; this crate joins them by cases on the form, so that the compiler above names
//! no form but where it adds up sizes. It also shows what ends the splitting: cost alone does not
//! fall with each split, so the measure adds to it the number of members, and both together do.
//!
//! What it promises: `parts`, which uses the core up, and `kept_parts` give exactly the parts of a
//! compound core (their one clause), and `is_compound` is exactly whether a core is one. `cut`
//! tells of a core that is a long list how it is cut at its front, and what it tells makes just
//! these parts (`IsCut`); when it tells something no clause says, since a list may always be split
//! as a whole. Law: `parts_law` (the parts stand for the core both ways, fit, cost no more, and are
//! together smaller than it).
//!
//! To add a compound form, say here which crate gives its parts (`specs/Parts.antt`,
//! `src/compound.rt`) and that they are smaller (`proofs/PartSizes.antt`).
#![tactic(auto)]

mod compound;
pub mod laws;

pub use compound::{cut, is_compound, kept_parts, parts};
