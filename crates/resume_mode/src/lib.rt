//! The mode `resume`: from the text of a model and one of values that are wished for to the text of
//! an answer, begun from these values.
//!
//! The model is read and weighed first, and only then the second text is asked for, and read by
//! `wish_text`: an answer, what `--progress` wrote of a run that was stopped, or lines made by hand.
//! A model is then answered as by `solve`, but that the first round decides first that the names
//! have the values that are wished for. These are a wish and no more: they need not be a solution,
//! and what is promised of the answer is what `solve` promises, word for word.
//!
//! What `resume` promises is the record `ResumeMode`: on `Done` or `Unknown(b)` the written text is
//! a valid answer to the model, its verdict is true, and no line of the second text fails; on
//! `Refused(n)` line n of that is the first that fails, as it tells no value of a declared name, or
//! one that isn't in the name's domain. A model with a first fault gives it, and the second text was
//! not asked for (`faulty`). Of told texts a line that fails is told (`refuses`), and where none
//! does the run ends in an answer (`finishes`), unless memory is wanting.
//!
//! That a line is refused (`RefusedWish`) goes into a cell of the caller, too; no clause speaks of
//! it.
#![tactic(auto)]

mod fault;
mod making;
mod mode;

pub use fault::RefusedWish;
pub use mode::{Resuming, resume};
