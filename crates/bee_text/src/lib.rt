//! Numbers, lines and words of a text: what every reader and writer of the house shares.
//!
//! Decimal numbers are read and written at 128 bits, and who wants fewer narrows them; so one
//! reader serves literals, ids, weights and counts. A text is cut into lines by `Lines`, and a line
//! into words by `split_words`, at single blanks, or by `next_word`, at any gap of blanks, tabs,
//! carriage returns and line feeds; `is` compares a word with given bytes. The standard library
//! finds the blanks and the line feeds (`position`), so the base stands on `itoa` alone; a crate of
//! parsers would not tell what a proof wants, that a text tells its value.
//!
//! What it promises: a number is read exactly where the bytes are its decimal, without a plus sign
//! or a leading zero (`read`, `complete`), and written exactly; lines and words are split and
//! joined as inverses. The laws (`decimal_laws`, `line_laws`, `word_laws`) say that a text tells
//! its number, its lines, its words: each format above is shown to tell its value by them, layer by
//! layer.
//!
//! Each call with `push_` in its name writes behind what a buffer has. A further word of a format
//! is best made of these calls; a second reader of numbers is wanted nowhere.
#![tactic(auto)]

mod bytes;
mod gaps;
mod laws;
mod lines;
mod number;
mod words;
mod write;

pub use bytes::is;
pub use gaps::next_word;
pub use laws::{decimal_laws, line_laws, word_laws};
pub use lines::{Lines, TextLine};
pub use number::{read_number, read_signed};
pub use words::{Words, is_word, split_words};
pub use write::{end_line, push_blank, push_bytes, push_number, push_signed};
