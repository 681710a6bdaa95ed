//! The mode `decode`: from a compiled text and a SAT solver's answer to the values of the declared
//! names.
//!
//! The solver is not believed: values are taken only where each variable has one and every clause
//! is true. The compiled text is not believed to come from `bee`, either: what is written is true
//! of the assignments that this text stands for, and where it is what `bee compile` wrote, of the
//! model.
//!
//! What `decode` promises is the record `DecodeMode`: on `Done` the first text is a compiled text,
//! the second an answer in form that satisfies its clauses, and the written lines tell what each
//! name has under it; on `Refused(n)` line n of the second is the first that fails; a first text
//! out of form gives the line that fails. `answer_law`: each two texts have one end. The law that
//! composes compiling and decoding stands in `bee_cli` (`decoding_law`). Why a line is refused
//! (`RefusedValues`) goes into a cell of the caller; no clause speaks of it.
//!
//! It is the shortest mode over two texts: begin here to write a further one.
#![tactic(auto)]

mod fault;
mod laws;
mod making;
mod mode;

pub use fault::RefusedValues;
pub use laws::answer_law;
pub use mode::decode;
