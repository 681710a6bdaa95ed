//! Which texts are models: from a text's items to its model, or to the first fault of types.
//!
//! A statement's name gives its signature, and limits, sizes and typing are one induction over that
//! list of arguments, not a case for each of seventy names. Each item is taken and let go, and only
//! what it declares and states is kept. A fault that was found is kept while later items are taken,
//! since a fault of the text's form, however late, comes first.
//!
//! What it promises: `check_types` gives exactly the model of the items where they have no fault,
//! which is well typed, and else exactly the first fault (`accepted`, `model`, `typed`, `fault`);
//! `Typing` does the same for items that come one at a time (`taken`, `kept`, `failed`). Laws:
//! `typing_law`, `limit_law`, and `size_law`: a model is no larger than its items, and these have
//! no more terms than their text has bytes, which is what bounds all that follows by the text's
//! length.
//!
//! Names are looked up in one table, which holds short names in itself and one byte for their kind;
//! domains lie apart, so a look-up reaches one place of memory. The order of faults is part of the
//! language ("Faults" of `docs/LANGUAGE.md`).
#![tactic(auto)]

mod call;
mod check;
mod fault;
mod faults;
mod items;
mod laws;
mod names;
mod scope;
mod signature;
mod statements;
mod taking;

pub use check::check_types;
pub use fault::TypeFault;
pub use laws::{limit_law, size_law, typing_law};
pub use taking::Typing;
