//! The rules for sums, counts, greatest members, products and divisions: which two atoms such a
//! core makes equal.
//!
//! They are bounds propagation and value links, as equations: that a sum's least value makes "at
//! least v" of its integer True, that a member beside a constant is the other one shifted. Each is
//! told as an equation of two atoms, so that bounds, constants and aliases are one kind of fact and
//! the store has them all. Values are of 128 bits, and sums and products fit by the limits of a
//! well formed core.
//!
//! What it promises: `find` gives exactly the first equation of two different atoms by the form
//! (`shape`); of a well formed core it is an instance and implied (`instance`, `implied`), `None`
//! comes exactly where there is no instance (`none`), and one step is counted (`steps`).
//! `is_instance` is exactly whether an equation is one (its one clause). Laws: `implied_law`,
//! `atoms_law`.
//!
//! A query costs one walk along the members and their values; in a maximum the two greatest of
//! the members' greatest values tell which values one member at most reaches. A sum knows what its
//! members add up to (`totals_of`): where the others leave each member but the last one all its
//! values (`binds_last_alone`), `find` takes the time of the last one, and so does `is_instance` for
//! an equation that the last one states. The lists in `specs/` follow the table "Equations" of
//! `docs/CORES.md` line by line.
#![tactic(auto)]

mod constants;
mod divisions;
mod instances;
pub mod laws;
mod links;
mod maxima;
mod numbers;
mod products;
mod ranges;
mod sums;

pub use instances::{find, is_instance};
pub use links::Link;
pub use maxima::Tops;
pub use ranges::Range;
pub use sums::{binds_last_alone, totals_of};
