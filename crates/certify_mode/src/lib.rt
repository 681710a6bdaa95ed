//! The mode `certify`: from the text of a model and what another solver found about its clauses to
//! the text of the answer.
//!
//! The model is read and compiled as by `compile`; only then the second text is asked for, and
//! imported (`answer_import`): values alone are a solution, a refutation alone says that there is
//! none, and values with a refutation of the clauses and that the objective is better are an
//! optimum. The document is written as `solve` writes one, and `check` takes it. The refutation may
//! come from many solvers on many machines: nothing that they say is believed.
//!
//! What `certify` promises is the record `CertifyMode`: on `Done` the written bytes are a valid
//! answer to the model, and its verdict is true and what the second text shows; on `Refused(n)`
//! line n of the second text is the first that fails, or the one behind its last where nothing is
//! shown. A model with a first fault gives it, and so does one with two objectives, of which one
//! refutation says too little (`CertifyFault`). The clauses are those of a whole compilation, but
//! which steps one has is free, so the record names the fault of a told model (`faulty`), and says
//! of one that is fit that some text is written (`finishes`): the answer exactly where the second
//! text shows one to the model as this run compiled it, and else the line that fails (`decides`).
//!
//! Why a line is refused (`RefusedFinding`) goes into a cell of the caller; no clause speaks of it.
#![tactic(auto)]

mod fault;
mod holding;
mod making;
mod mode;

pub use fault::{CertifyFault, RefusedFinding};
pub use mode::certify;
