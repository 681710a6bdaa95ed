//! The compiled text: a CNF in the DIMACS format, whose comment lines say what each declared name
//! is and which steps led to the clauses.
//!
//! A SAT solver passes comment lines over, so one file is at once the solver's input, the map for
//! the way back, and a certificate of the compilation. A map in a file of its own could be lost or
//! exchanged; here `bee decode` needs the text alone.
//!
//! What it promises: `write_compiled` gives exactly the compiled text of names, ledger and CNF
//! (`text`), and `write_values` exactly the lines that tell what the names have under values (its
//! one clause). `text_laws`: a text tells its names, what they stand for, its ledger and its CNF,
//! and so stands for exactly the assignments of its satisfying valuations.
//!
//! The text is made whole before a byte of it is written. Its form is "Compiled text" of
//! `docs/FORMATS.md`; `dimacs_read` reads exactly it, and a little more.
#![tactic(auto)]

mod laws;
mod text;
mod values;
mod write;

pub use laws::text_laws;
pub use text::CnfText;
pub use values::write_values;
pub use write::write_compiled;
