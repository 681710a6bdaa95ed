//! Lists over a `Vec`, and values that stand apart: the two containers that types of every layer
//! are built from.
//!
//! `Sequence<T>` is a list whose contract is the list of its members alone, so a clause of a caller
//! sees lists at every depth and never a capacity. Members leave at its front in constant time,
//! since it has a start, and come at its back; so what is left of a long list is made of the list
//! itself and not copied; a linked list would take memory for each member. `Apart<T>` is a box that
//! clauses see as its value; it keeps an enum small where one variant is large.
//!
//! What it promises: `==` of lists is equality where `==` of their members is (`equal`);
//! `drop_front` takes away exactly the first members, `push` puts one behind the others (`pushed`)
//! or, where memory is refused, leaves the list as it was (`stays`), and `drop_last` undoes it.
//! That `drop_front` takes constant time no clause says.
//!
//! Members that left stay in the list's memory until it falls out of use. Most crates stand on this
//! one, so a changed clause here proves most of the house anew.
#![tactic(auto)]

mod apart;
mod sequence;

pub use apart::Apart;
pub use sequence::Sequence;
