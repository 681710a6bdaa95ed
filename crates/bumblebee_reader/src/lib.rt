//! The grammar of the model language, both ways: from a text to its syntax, and back.
//!
//! Tokens are the longest that fit, and the reader is one move from place to place, folded over the
//! tokens; recursive descent stands above that fold, so it is complete by one equation. Reading is
//! apart from typing: a syntax has names and numbers and no meaning, and a text's first fault of
//! form comes before any fault of meaning. Items come one at a time, so that a model of 16 MB never
//! stands whole as syntax. The language is in the style of BumbleBEE (Metodi and Codish, 2012).
//!
//! What it promises: `read_model` is `Ok(s)` exactly where the bytes are a text of the grammar with
//! syntax s, and each fault comes with its line exactly where it is the first (`ok`, `syntax`,
//! `number`). `ItemReader` gives the same items one by one (`read`, `shorter`, `at_end`, `at_fault`);
//! where it gives none it stays as it was. `print_model` is exactly the canonical text, and
//! `is_name` says which words are names. Laws: a text has one syntax (`one_syntax`), it is a text
//! or has a first fault (`text_or_fault`), and the canonical text of a syntax reads as that syntax
//! (`round_trip`).
//!
//! A name of up to 16 bytes is kept inline and takes no memory of its own. "Tokens" and "Grammar"
//! of `docs/LANGUAGE.md` say the same; a name declared by an item is no business of this crate.
#![tactic(auto)]

mod fault;
mod items;
mod laws;
mod lexeme;
mod model;
mod name;
mod numeral;
mod print;
mod read;
mod syntax;
mod tokens;
mod words;

pub use fault::ReadFault;
pub use items::ItemReader;
pub use laws::{
    canonical_is_text, one_syntax, round_trip, text_is_spellable, text_or_fault, unread_tells,
};
pub use lexeme::is_name;
pub use model::read_model;
pub use name::Name;
pub use print::print_model;
pub use syntax::{Arg, GoalKind, Item, Syntax, Term};
