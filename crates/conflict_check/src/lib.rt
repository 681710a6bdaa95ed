//! The checker of conflicts: it takes exactly the valid texts of a model, and names the first line
//! that fails of every other text.
//!
//! Nothing that a text says is believed. The named statements are marked along one walk over those
//! of the model, since their numbers ascend; then the model, which is owned, is divided by these
//! marks, so that no statement is copied. The part that is left is lowered to a state of the
//! checker's own: a line of the ledger is made as a step of it, and each line of the derivation goes
//! to the checker of `proof_check`. Whether a statement is needed is not searched: its assignment is
//! tested against all others, at the line behind its last value.
//!
//! What `check_core` promises: it gives a verdict exactly where the text is that of a conflict with
//! this verdict, and then what it says is true (`conflict`, `complete`). Else it tells the greatest
//! weight that a part of the model may have, where that is too heavy, before the text is looked at; or
//! the first line that fails, counted from 1, and then the text is none of a conflict (`fault`); or
//! memory is wanting. `check_text` is the same of a model that is known to be light enough.
//!
//! Why a line is refused (`RefusedConflict`) goes into a cell of the caller, who may say it; no clause
//! speaks of it.
//!
//! `conflict_text` defines which line may stand next. The reading is in two: up to the line behind the
//! named statements the model is lent, and behind it the part is, so `Head` and `Reading` are two.
#![tactic(auto)]

mod checking;
mod fault;
mod head;
mod marking;
mod reading;
mod refused;
mod words;

pub use checking::{ConflictJudgement, check_core, check_text};
pub use fault::CoreFault;
pub use refused::RefusedConflict;
