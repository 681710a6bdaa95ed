//! Why a model has no solution: a conflict, which is a part of its statements that no assignment in
//! the domains meets, and of which each statement is needed for that.
//!
//! The model is divided into a part that is asked about and what is left out. Each query is an
//! ordinary answer to the part, so truth comes from the contract of `decode_minimize::answer_watched` alone,
//! and which part is asked about next is free (`choosing`). From a refutation `used_statements` tells
//! what it used, and the part of that is asked about next, while a fifth goes (`trimming`). Then groups
//! are left out, twice as many after each that can be spared. A solution that breaks one statement
//! alone shows that this one is needed, and others come of it by changing one name (`rotating`: Belov
//! and Marques-Silva, 2011). Such assignments are kept without a promise (`witnesses`).
//!
//! A conflict rests on the last pass alone (`settling`): each statement's assignment is tested, or the
//! part without it is asked about; it stays with the assignment that meets all others, or leaves the
//! part.
//!
//! What `extract` promises: the document is one of a conflict, of a solution, or of a search that was
//! given up (`extracted`), its ledger and derivation are those of an answer to the part, so an UNKNOWN has
//! spent exactly the budget, and never comes from a stated number on; it fails exactly where a part may
//! be too heavy, or memory is wanting (`light`, `heavy`). `document_law`: what a document says is true.
//!
//! How few queries are made is no promise; `ExtractedConflict::questions` tells it.
#![tactic(auto)]

mod choosing;
mod extracting;
mod laws;
mod names;
mod reduction;
mod reply;
mod rotating;
mod settling;
mod trimming;
mod watching;
mod witnesses;

pub use extracting::{ExtractedConflict, extract};
pub use laws::document_law;
pub use watching::ConflictWatcher;
