//! The trail of a search: which literals were made true, in which order, at which level and why.
//!
//! An entry has a literal, its level and its reason, twenty bytes, and the entries are lent as one
//! slice. Beside them stand the value of each literal, a byte, and the place of each variable on
//! the trail: propagation asks for values, and a look at a level or a reason is two reads. There is
//! room for every variable from the start, 30 bytes each. Since no variable comes twice, a literal
//! that is made true never wants memory, and propagation cannot stop half way.
//!
//! What it promises: `imply`, `choose` and `cut_back` leave exactly the stated trail (`trail`) and
//! take no memory; an entry without a reason begins a level, and each other one is of the level
//! before it (`is_trail`). Each look-up tells exactly what the entries say. How a clause stands
//! under entries (false, unit, true or none of these) is defined in `specs/Standing.antt`, and all
//! crates of the search use that definition. Laws: `prefix_laws` (the trail up to a level is a
//! front of it), `truth_laws` (what a front says stays), `move_laws`.
//!
//! A reason is a number that nothing here looks at; `clause_rings` says that it is a clause.
#![tactic(auto)]

mod entry;
mod laws;
mod tables;
mod trail;

pub use entry::Entry;
pub use laws::{move_laws, prefix_laws, truth_laws};
pub use trail::LiteralTrail;
