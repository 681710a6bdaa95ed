//! Lists of numbered nodes, as rings of links: each node stands in one list at most, and goes from
//! one to another in constant time without memory.
//!
//! A place is a node or the sentinel of a ring, and has two links of 32 bits, to the places behind
//! and before it: eight bytes a node and a ring, in two arrays, so growing moves no place. An empty
//! ring's sentinel and a free node are their own neighbours; so unlinking needs no case. This is
//! the doubly linked ring with a sentinel of the textbooks, by numbers in place of pointers. With a
//! vector for each list a move could want memory, and then fail.
//!
//! What it promises: `push_back`, `push_front`, `unlink` and `splice` leave exactly the stated
//! lists (`lists`); `first`, `after` and `is_free` tell exactly what stands; `grow` adds empty
//! rings and free nodes, or leaves all as it was (`err`). No node stands twice (`rings`). Laws:
//! `place_laws`, `walk_laws` (a walk meets the list), `move_laws`.
//!
//! Watches, occurrences, the order of decisions, the clauses in use and the queue of a compilation
//! are such rings. The proof speaks of two functions, behind and before, and of chains between
//! places.
#![tactic(auto)]

mod laws;
mod links;
mod lists;
mod moves;

pub use laws::{move_laws, place_laws, walk_laws};
pub use lists::Rings;
