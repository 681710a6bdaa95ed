//! Reads pseudo-Boolean files: sums of coefficients of true literals, each compared with a number, and a sum that is to
//! be least.
//!
//! A text is read line by line. A line that begins with `*` says nothing, and any other one is words, each of which is
//! a token: `min:`, `;`, a comparison, a number, a literal. What a text says is an [`Opb`], and `specs/Grammar.antt`
//! spells each of these as tokens; so a text is read exactly where its tokens are the spelling of one.
//! `specs/Steps.antt` says what may stand next, and what is known behind it.
//!
//! A text that isn't read has one first fault. It is the first token behind which no text can be completed, or the
//! first number that is past its limit, and where the text ends too early it is its last line. That each text has
//! either, and only one, is a law ([`text_law`]).
//!
//! What a file means stands in `specs/Solutions.antt`, in its own words: which assignments satisfy it, and what they
//! cost. Reading takes one pass over the text, and memory for the terms alone: an index is a number, so one that is
//! great costs no more here than one that is small.
#![tactic(auto)]

mod draft;
mod fault;
mod items;
mod laws;
mod places;
mod reading;
mod tokens;
mod words;

pub use fault::OpbFault;
pub use items::{Comparison, Constraint, Literal, Objective, Opb, Term};
pub use laws::{fits_law, text_law};
pub use reading::read_opb;
