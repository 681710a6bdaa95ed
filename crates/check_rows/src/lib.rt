//! Rows worked out by hand: the calls that have a model and a text alone, and say whether the text is a
//! valid list of the model's solutions (`check_list`), or that of a conflict (`check_core`).
//!
//! No mode makes these calls, since a mode judges the model before it asks for the second text; they
//! are for programs over the checkers. A row has the model, the text and what is told: the verdict, the
//! first line that fails, or the weight of a model that is too heavy. What the modes tell of many more
//! texts the whole program shows, in transcripts of `bee_rows`.
#![tactic(auto)]

#[cfg(test)]
mod conflicts;
#[cfg(test)]
mod lists;
#[cfg(test)]
mod models;
