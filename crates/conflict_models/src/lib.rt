//! From a text to the model that it says of which conflicts are asked, and the first fault of a text
//! that says none.
//!
//! A conflict is a part of a model's statements, so each part has to be light enough to be compiled: the
//! weight that counts is that of the heaviest part, which is the model's and one for each `bool2int`
//! that declares its integer. In all else such a text is as any model's.
//!
//! What it promises: `whole_model` gives the model that a text says where no part of it is too
//! heavy, and else the first fault of the text (`model`, `fault`), with the weight itself where that
//! is too great. `reading_fault` is the cause where reading alone gives no model. `fault_law`: a text
//! has one first fault, or it says one such model, and never both.
//!
//! The modes that make conflicts and that check them stand on it, so that they refuse the same texts.
#![tactic(auto)]

mod laws;
mod whole;

pub use laws::fault_law;
pub use whole::{reading_fault, whole_model};
