//! The rules for all-different and lexicographic order: which two atoms such a core makes equal.
//!
//! All-different names places two and three at a time: a member that is constant, two members with
//! the same two values, and, where there are as many values as members, a value that one member
//! alone has. No walk tries all pairs. Tables tell the sure members of one value or of the same two
//! values, and for each value the places at which it stands, up to three of them; that is enough to
//! know whether it stands elsewhere than at one or two given places. So a query takes time
//! near-linear in the values of all members. Matchings (Régin, 1994) would find more and cost more;
//! what is not found here is left to the search.
//!
//! What it promises: which equations are stated is a relation, and `find` gives an instance of it
//! (`instance`), implied (`implied`), or nothing exactly where there is none (`none`); it counts
//! one step, also where memory is refused (`steps`). `is_instance` is exactly whether an equation
//! is one. Laws: `exact_law` (the test says what an instance is, of each core), `implied_law`,
//! `atoms_law`.
//!
//! Which of several instances `find` gives is open, so the tables may be changed freely. That it is
//! near-linear no clause says.
#![tactic(auto)]

mod instances;
pub mod laws;
mod member_tables;
mod members;
mod narrow;
mod order;
mod table;
mod tally;
mod twins;

pub use instances::{find, is_instance};
pub use twins::atom_at;
