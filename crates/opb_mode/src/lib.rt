//! The modes `opbmodel` and `opb`: from a pseudo-Boolean file to the text of its model, and to the text of the answer
//! to it.
//!
//! A file is read by `opb_front` and made a model by `opb_model`. `opb` then goes the way of `solve`, whose body and
//! record it shares (`write_answer`, `SolveRun`): which text stands for which model is a parameter there. So everything
//! that `solve` promises holds here too, of the model of the file.
//!
//! What they promise: `opb_model_text` writes exactly the canonical text of the file's model (`OpbModelMode`), which
//! says that model; `opb` a valid answer to it (`OpbMode`). `verdict_law`: the verdict of what `opb` wrote is true of
//! the file in the file's own words: no assignment satisfies it, one does, or one does that costs least. `answer_law`:
//! each file has one end of `opbmodel`. The first fault is told: more than 16,777,216 bytes, then the first fault of
//! `opb_front`, then a model's text of more than 16,777,216 bytes, then, in `opb`, a weight above the limit.
//!
//! The length of the model's text is known by writing it, which stops where it is too long; it is let go before the
//! model is made. That text is the one that `bee check` wants beside the answer.
#![tactic(auto)]

mod answer_mode;
mod laws;
mod making;
mod model_mode;

pub use answer_mode::opb;
pub use laws::{answer_law, verdict_law};
pub use model_mode::opb_model_text;
