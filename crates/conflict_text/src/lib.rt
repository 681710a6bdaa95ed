//! The text of a conflict: which statements of a model have no solution together, and what shows it.
//!
//! A text says SATISFIABLE, with a solution; or CORE, with the numbers of some statements, a ledger
//! and a derivation in the form of LRAT that show that the model with these statements alone has no
//! solution, and for each of them an assignment that meets all others, so that none can be spared;
//! or UNKNOWN, where a search was given up. That each statement is needed is shown by such a
//! witness and not by a search, so a reader tests it at once.
//!
//! Core is this repository's word for a constraint, so statements that have no solution together, and
//! of which none can be spared, are a conflict here. The mode that writes them is `core`, as they are
//! called elsewhere, and from it the verdict and the calls have their names (`CoreVerdict`,
//! `write_core`).
//!
//! The text is defined by its lines alone (`specs/ConflictLines.antt`): which line may stand next, and
//! what stands behind it. So validity is said of bytes, and a checker has nothing to interpret.
//!
//! What it promises: `conflict_law`, that what a whole text says is true of the model, whoever wrote
//! it (`says`), and that each part of a conflict that lacks one of its statements has a solution
//! (`irreducible`). `one_line_law`: a line leads to one standing, so a text has one verdict, or one
//! first line that fails. `write_core` gives exactly the text of a document (its one clause), and
//! `written_law` says that such a text is whole, with the document's verdict.
//!
//! The lines of ledger and derivation are those of `certificate_lines`. A further part of the text
//! is a case of `Part` and of `NextIn`.
#![tactic(auto)]

mod document;
mod laws;
mod part;
mod verdict;
mod writing;

pub use document::ConflictDocument;
pub use laws::{conflict_law, one_line_law, written_law};
pub use part::Part;
pub use verdict::CoreVerdict;
pub use writing::{push_verdict, write_core};
