//! The modes `check`, `checkall` and `checkcore`: from the text of a model and that of an answer, a
//! list of its solutions or a conflict to whether that is valid.
//!
//! The model is judged first, its weight too; only then the second text is asked for, and taken
//! line by line by `ledger_check`, `list_check` or `conflict_check`. What is written is one line:
//! `ACCEPTED` with the verdict's words, or `REFUSED` with the number of the first line that fails.
//!
//! What each promises is one record (`Checks`) of its kind of text (`CheckMode`, `CheckAllMode`,
//! `CheckCoreMode`): on `Done` the second text is valid for the model, and what it says is true,
//! whoever wrote it; on `Refused(n)` it is none, and line n is its first that fails; a model with a
//! first fault gives it, and the second text was not asked for. For a conflict a model counts as too
//! heavy by what any part of it may weigh. `answer_law`: it cannot be that two texts have no end.
//! Why a line is refused goes into a cell of the caller, who may say it; no clause speaks of it.
//!
//! A kind of text (`Kind`) is which model a text holds, which texts are valid and which line of
//! another one fails, and the words of a verdict. A `Checker` of it says how the model is judged and
//! kept, and how a text is checked. That told texts have one end, and that there is one, follows for
//! every kind from six facts of it and from two (`IsOneEach` and `IsSomeEach` of `proofs/Ends`). So
//! a further mode is a kind, a checker, and these facts.
//!
//! These modes are the program's reason to be: who believes them and the meaning of models needs to
//! believe no solver, this one included.
#![tactic(auto)]

mod answers;
mod checked;
mod checker;
mod conflicts;
mod laws;
mod lists;
mod run;

pub use answers::check;
pub use conflicts::check_core;
pub use laws::answer_law;
pub use lists::check_all;
