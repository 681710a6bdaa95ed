//! Cores, atoms, integers and equations in words, as the rows of tests have them: read from words
//! and put into words again.
//!
//! A row of a table is a short text such as `Parity odd 1,2,-3`, and one function compares what a
//! call gives with what the row says. So rows are written and read by people, and no test builds
//! values by hand. What is read is known to be well formed and small, so rows hand it to any call
//! without further proof.
//!
//! It is a library of the tests alone; no crate of the program uses it. Its words are nobody's
//! format and may change, with the rows. A further form of constraint wants its word in
//! `src/forms.rt` and `src/shown.rt`.
#![tactic(auto)]

mod below;
mod cores;
mod equations;
mod forms;
mod ints;
mod shown;
mod words;

pub use below::is_core_below;
pub use cores::{core_of, cores_of};
pub use equations::{equation_of, equation_text};
pub use ints::int;
pub use shown::{core_text, push_core, push_int};
pub use words::{atom, atoms, number, word};
