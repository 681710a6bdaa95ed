//! The mode `solve`: from the text of a model to the text of its answer.
//!
//! It joins the reading of a model, `decode_minimize` with all rules, and the writing of the
//! document. Its text may differ from run to run, as far as the contract goes, since the order of
//! decisions is free; so the record names the fault of a told text (`faulty`), and says of one that
//! says a model that some answer is written (`finishes`).
//!
//! What `solve` promises is the record `SolveMode`: on `Done` or `Unknown(b)` the written text is a
//! valid answer to the model, and its verdict is true; its ledger is that of a whole compilation;
//! `Unknown(b)` comes exactly where the verdict is UNKNOWN, then b is the budget, and never where
//! the budget is as great as a stated number of the model's size.
//!
//! `answer_model` opens the counter of queries and is used by `queens_mode`, too; `outcome_of`
//! says which verdicts are `Done`. `write_answer` and the record are shared with `opb_mode`, whose
//! texts stand for models in another way: which text holds which model is a parameter of the record
//! (`SolveRun`). `write_wished`, for `resume_mode`, takes values that are wished for, too.
#![tactic(auto)]

mod answering;
mod making;
mod mode;

pub use answering::{answer_model, outcome_of};
pub use making::{write_answer, write_wished};
pub use mode::solve;
