//! What a run of the program promises, whichever mode it is, and its body: read no text, one or
//! two, judge, make the whole text that is written, and only then write.
//!
//! A mode is three relations between texts, as the ghost members of a trait: which text is written
//! for those that are read and with which outcome, which fault the first one has, and how much of
//! it is read (`NoText`, `OneText`, `TwoTexts`). `run_none`, `run_one` and `run_two` are the
//! bodies, and each promises one record over these relations (`NoTextRun`, `OneTextRun`,
//! `TwoTextRun`): what each end says, that nothing is written where none is to be, the counts of
//! faults, and what is taken. With a body of its own each mode would repeat these proofs; over this
//! crate a mode is its relations, a function that makes its text, and one lemma.
//!
//! The lemma is that texts have one end, and gives the rest of the record: told texts get that end,
//! or memory is wanting (`answers`, `faulty`). A mode whose text may differ from run to run says in
//! its place that such a text ends in some text (`Finishes`).
//!
//! `refusal` makes the line `REFUSED N` for every mode. A change of a record here is a change of the
//! headline of `bee_cli`.
#![tactic(auto)]

mod ends;
mod no_text;
mod one_text;
mod refusals;
mod two_texts;
mod whole_text;

pub use ends::{End, Made, Outcome};
pub use no_text::{NoText, run_none};
pub use one_text::{OneText, run_one};
pub use refusals::refusal;
pub use two_texts::{TwoTexts, run_two};
