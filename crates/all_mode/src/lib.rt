//! The mode `all`: from the text of a model to the list of all its solutions, with a certificate
//! that there are no others.
//!
//! It joins the reading of a model, `list_answer` with all rules, and the writing of the list. Its
//! text may differ from run to run, as far as the contract goes, since the order of the search is
//! free; so the record names the fault of a told text (`faulty`), and says of one that says a model
//! that some list is written (`finishes`). The goal of the model doesn't matter.
//!
//! What `list_solutions` promises is the record `AllMode`: on `Done` or `Unknown(b)` the written
//! text is a valid list, and what it says is true: on `Done` it says ALL, and lists exactly the
//! model's solutions, each once; on `Unknown(b)` it says PARTIAL with b, which is the budget, and
//! lists solutions alone, each once. `Unknown(b)` comes only where the budget was spent on one
//! search, and never where it is as great as a stated number of the model's size.
//! `accepted_law`: what is written `checkall` accepts. `answer_law`: no text is without an answer.
//! How far the list is goes to a watcher of the caller; no clause speaks of it.
//!
//! It is `solve_mode` with another text, but for the model, which is kept: each solution that a
//! walk finds is tested against it.
#![tactic(auto)]

mod answering;
mod laws;
mod making;
mod mode;

pub use laws::{accepted_law, answer_law};
pub use mode::list_solutions;
