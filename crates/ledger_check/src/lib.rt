//! The checker of answers: it takes exactly the valid documents of a model, and names the first
//! line that fails of every other text, with the cause.
//!
//! Nothing that a text says is believed: the model is lowered anew, each line of the ledger is made
//! as a step of the state, the CNF is that state's, and each line of a derivation goes to the
//! checker of `proof_check`. Values are tested against their domains where they stand, the
//! statements and the objectives behind the last value. It is read line by line over `line_texts`,
//! so a document of any length is checked in one pass.
//!
//! What `check` promises: it gives a verdict exactly where the text is a valid answer with that
//! verdict, and then what it says is true (`answer`, `complete`). Else it tells the weight of a
//! model that is too heavy, or the first line that fails, counted from 1, and why, and then the
//! text is no valid answer (`fault`); or memory is wanting. Laws: `reading_law` (a text that is
//! read to its end is a valid answer, and the other way about), `first_fault_law` (a text has one
//! first line that fails).
//!
//! It shares the kernel of steps with the compiler, and the search with nobody: what a solver does
//! wrong it cannot hide. A further part of a document is a case of `Part`, and of `IsNext`.
#![tactic(auto)]

mod bounds;
mod checking;
mod derivation;
mod fault;
mod laws;
mod lines;
mod opening;
mod part;
mod reading;
mod told;
mod values;
mod words;

pub use checking::{Judgement, check, check_lowered};
pub use fault::{CheckFault, Why};
pub use laws::{first_fault_law, reading_law};
