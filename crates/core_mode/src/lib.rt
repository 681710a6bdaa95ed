//! The mode `core`: from the text of a model to the text that says why it has no solution.
//!
//! It joins the reading of a model, `core_extract` with all rules, and the writing of the document. Which conflict is
//! written may differ from run to run, as far as the contract goes, since the choice of queries and the order of
//! decisions are free; so the record names the fault of a told text (`faulty`), and says of one that says a model that
//! some text is written (`finishes`).
//!
//! What `core` promises is the record `CoreMode`: on `Done` the written text is that of a conflict or of a solution,
//! and what it says is true: no assignment in the domains meets all statements of the conflict, and each of them is
//! needed for that, by an assignment that stands in the text and meets all others. `Unknown(b)` comes exactly where the
//! text is that of a search that was given up, and b is the budget; never where the budget is as great as a stated
//! number of the model's size. A model is too heavy where its weight, and one for each `bool2int` that declares its
//! integer, is above the limit. `answer_law`: each text has a fault or says a model that is answered. `accepted_law`:
//! what is written `checkcore` accepts. How small the part is by now goes to a watcher of the caller; no clause speaks
//! of it.
#![tactic(auto)]

mod answering;
mod laws;
mod making;
mod mode;

pub use laws::{accepted_law, answer_law};
pub use mode::core;
