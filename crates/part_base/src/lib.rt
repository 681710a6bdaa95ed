//! The parts of a core: what is wanted of them, whatever its form, and how a long list is cut at
//! its front.
//!
//! A core that is too large to be encoded is split: parts over its own variables and fresh ones
//! stand for it both ways and cost no more than it did (`ArePartsFor`). Parts must fit in the
//! ranges of a state, so that no later step meets a limit. A list of n members is split some n
//! times, and each rest would be a copy; so a cut tells only what leaves, what comes behind the
//! list, and the parts before and behind (`Cut`), and the rest is made of the core itself.
//!
//! What it promises: `put_behind` puts a member behind the list (`longer`) or, where memory is
//! refused, leaves it (`stays`); `take_behind` undoes it; `drop_before` takes the first members
//! away. `IsCut` is what a cut says: the rest has the core's variables and fresh ones alone, and is
//! stable where the core is. Laws: `parts_law` (what makes parts those of a core), `fresh_law`.
//!
//! `network_encode` and `decompose` make parts of their forms by these definitions, and
//! `step_kernel` takes them from `core_parts`; what stands above names a form's parts no more.
#![tactic(auto)]

mod cut;
pub mod laws;
mod parts;

pub use cut::{Coming, Cut, drop_before, put_behind, take_behind};
pub use parts::{Parts, fresh_atom, no_parts};
