//! The words of the command line, read by `clap`: `bee MODE [--budget N] [--no-restart]
//! [--progress] [--] INPUT [SECOND]`.
//!
//! They stand in a crate of their own so that clap's definitions are in sight of nothing else; what
//! callers see is a command with its names as texts. A budget or a size outside its limits makes no
//! command, so that a mode never gets one. A mode that is not built is no command either.
//!
//! What it promises: `read_command` gives exactly the command that the words ask for, one of its
//! modes with its names or its number and with its options, or none where clap does not take the
//! words, they are no command, or a number is outside its limits (its one clause, over clap's own
//! definitions of what it takes and finds). `limits_law`: the budget, the size and the number of
//! each command that words ask for are in their limits.
//!
//! clap takes a word that begins with a hyphen for an option, up to a word `--`; so a negative
//! number stands behind that. It has settings that allow such a word in its place, but what it
//! makes of the words is no stated function under them.
//!
//! A further mode has a case in `src/command.rt`, `src/found.rt` and `specs/Request.antt`; a
//! further option wants its rule told to clap in `src/line.rt` and its proof, a lemma for each
//! kind.
#![tactic(auto)]

mod command;
mod found;
mod laws;
mod line;
mod numbers;
mod read;

pub use command::{Command, Options};
pub use laws::limits_law;
pub use read::read_command;
