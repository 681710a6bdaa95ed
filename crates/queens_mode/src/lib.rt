//! The mode `queens`: from the size of a board to a text with the columns of its queens and the
//! answer behind them.
//!
//! It reads no text and asks the shelf for nothing. The model is `queens_model`'s, the answer is
//! made as by `bee solve`, and the written text tells beside it the numbers of variables, clauses
//! and equations.
//!
//! What `queens` promises is the record `QueensMode`: on `Done` or `Unknown(b)` the written text is
//! a stated function of the size, of a valid answer to the model of that board, and of the size of
//! its CNF; behind SATISFIABLE there is a queen in each row and no two attack each other. No other
//! end comes but `Write` and `Memory`, since the model is well typed and light for each size.
//!
//! The text is that of `docs/FORMATS.md`, "What `bee queens` writes". Sizes are from 4 to 24, which
//! `command_words` judges.
#![tactic(auto)]

mod making;
mod mode;
mod summary;

pub use mode::queens;
