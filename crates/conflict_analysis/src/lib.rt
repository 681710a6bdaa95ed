//! What is learned at a conflict: the clause, the hints of its line in the proof, and how far back
//! the search goes.
//!
//! From the false clause a walk goes down the trail, resolving literals of the current level until
//! one is left (conflict analysis: Marques-Silva and Sakallah, 1996; the first such point:
//! Moskewicz and others, 2001). What is met below that level and is implied by the rest is taken
//! out by a search with a stack (minimisation: Sörensson and Biere, 2009); each variable's outcome is
//! found once. The hints are the reasons, turned round, each where it is unit, and the conflict
//! last. The glue is the number of levels (Audemard and Simon, 2009). Marks are kept from one
//! analysis to the next and cleared by their list, so a refusal of memory leaves nothing to undo.
//! The hints stand inline until a list has more than 16, which was measured to cost next to nothing.
//!
//! What it promises of `analyse` of a `Walker`: the clause follows from the conflict and the
//! reasons that the hints name (`IsLearned`, which speaks of no walk), its first literal is false
//! by the current level, the second by the greatest other one, which is `jump` (`AreKept`).
//! `refute` and `confirm` give hints at level 0. Laws: `accepted_law` (the checker takes the
//! hints), `new_laws` (the clause is new), `standing_laws` (it is unit after the jump),
//! `resolve_law`.
//!
//! Because the definition allows any further literal to be resolved, minimisation may be changed
//! without new laws. That no implied literal stays is not proved, and nothing is said of `glue`.
#![tactic(auto)]

mod collect;
mod follow;
mod laws;
mod marks;
mod meeting;
mod minimiser;
mod reasons;
mod walk;
mod walker;
mod work;

pub use laws::{accepted_law, new_laws, resolve_law, standing_laws};
pub use reasons::Reasons;
pub use walker::Walker;
