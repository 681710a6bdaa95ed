//! Which cores each variable occurs in: for each variable a list of ids, so that an equation wakes
//! the cores at the variables whose label it changed and no others.
//!
//! Each occurrence is a node of `index_ring`, used again when its core goes. The nodes belong to a
//! body, and a body has an id; what is left of a long list takes over the body of the list that was
//! split, by an exchange of two ids (`exchange`), so its thousand occurrences are not linked anew.
//! An id may so stand at a variable that its core has no more, and who reads the list asks the
//! core. Lists do not move when two classes of variables become one: the worklist walks the members
//! of the class that loses instead, so no list is spliced.
//!
//! What it promises: `with`, `grow`, `add`, `remove` and `exchange` leave exactly the stated lists
//! (`lists`), and a refused `grow` leaves all as it was (`err`); the last three take no memory.
//! `ids_at` lists exactly the ids at a variable, upwards. An id stands in a list once at most. Laws
//! tell what stands after each call, and how many occurrences there are in all (`total_laws`).
//!
//! Only `fixpoint_queue` uses it. The order of `ids_at` decides in which order cores are woken, and
//! with it the bytes of every ledger.
#![tactic(auto)]

mod by_id;
mod chains;
mod laws;
mod linking;
mod lists;
mod names;
mod walk;

pub use by_id::Occurrences;
pub use laws::{added_laws, exchanged_laws, grown_laws, removed_laws, total_laws};
