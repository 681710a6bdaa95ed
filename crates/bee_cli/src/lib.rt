//! The program's one call, `run`: from the words of the command line and a shelf to a sink and a
//! status. Its contract is what the whole repository is about.
//!
//! `run` reads the words, hands the command to its mode and gives the mode's end as a status;
//! `code` is the exit code of each, and `report` writes the line on standard error. Each mode keeps
//! one record of clauses over what shelf and sink show before and after (`Obeys`), so the contract
//! is a table of modes and not a retelling of them. It is generic over shelf and sink: tests run it
//! in memory, and `main` over files and streams.
//!
//! What it promises: words are refused exactly where they ask for nothing that is built, and then
//! nothing is read or written (`usage`); else the record of the mode is kept (`obeys`).
//! `decoding_law`: what `bee compile` writes is a compiled text in form, and what `bee decode`
//! writes for it and an answer in form is a solution of the model. `checking_law`: what `bee solve`
//! writes is accepted, and an empty text is refused at line 1. `docs/PROVED.md` has it mode by
//! mode.
//!
//! Standard error: where no progress is asked for, `err` takes one stated line by the status, or a front
//! of it (`quiet`; what a fault or a refused line is called is free). A `Progress` is told of solutions
//! of the model alone (`heard`), and its invariant says what its sink took since it was made: stated
//! lines and blocks of solutions, by numbers of clauses that never fall. It stands in a cell, of whose
//! content no clause knows, so `run` doesn't say that of `err` where progress is asked for. No clause
//! of a status names `err`. Why a line is refused goes from its mode into a cell, and from there into
//! words (`Reason`). A further mode is a case of `is_built`, `Obeys`, `asks`, the statuses and `obey`.
#![tactic(auto)]

mod exit_code;
mod laws;
mod progress;
mod reason;
mod reporting;
mod running;
mod status;

pub use exit_code::code;
pub use laws::{checking_law, decoding_law};
pub use model_texts::ModelFault;
pub use reason::Reason;
pub use reporting::report;
pub use running::run;
pub use status::Status;
