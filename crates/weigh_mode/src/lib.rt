//! The mode `weigh`: from the text of a model to its weight and its heaviest items.
//!
//! A model is refused where it weighs too much, and whoever wrote it then wants to know what is
//! heavy in it. So this mode weighs any model that is well typed, also one that `compile` refuses,
//! and tells the ten items that weigh most, each with its share.
//!
//! What `weigh` promises is the record `WeighMode`: on `Done` the text read says a well typed model,
//! and the written lines are its weight and its ten heaviest items (`weighing_text`), the heaviest
//! first and equal ones in the order of the text; a text that says no model gives its first fault.
//! `answer_law`: each text has one end. `refusal_law`: the weight that is told of a text is the one
//! with which `compile` refuses it, where it does.
//!
//! The ten heaviest are kept on one walk along the items (`heaviest`), in no more memory than ten
//! of them take. What an item weighs is said by `model_weight` alone.
#![tactic(auto)]

mod heaviest;
mod laws;
mod making;
mod mode;
mod weighing_lines;

pub use heaviest::WeighedItem;
pub use laws::{answer_law, refusal_law};
pub use mode::weigh;
