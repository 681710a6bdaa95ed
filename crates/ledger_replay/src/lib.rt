//! A ledger's lines made again, line by line, as a checker does, where one look at a core serves
//! the whole run of its equations.
//!
//! Each line of a ledger is a step of its own, so a long core that tells a thousand equations would
//! be trimmed and walked a thousand times. At the second line in a row of one core, where that
//! line's rule has runs, the run of the core is made once; a line that is the next equation of it,
//! as the store has it, is then made without a look at the core. Any other line goes to the state
//! and ends the run. So a core with one line costs nothing more, and of a core without runs every
//! second line at most is looked at twice. At a long maximum or sum the run is made at the first
//! line, since it has the bounds of all members only while none of them is made, and then at every
//! second one.
//!
//! What it promises of `apply`: word for word what `apply` of `step_kernel` does (`step`, `fault`,
//! `stays`, `models`, `kernel`). So which ledgers are accepted does not depend on this crate; it is
//! speed alone. `with` begins at a state; `view`, `vars` and `cnf` tell what the state has.
//!
//! When a run is made is free to be tuned. That a line of a run is an instance is what
//! `equation_runs` proves of it, and is not tested again.
#![tactic(auto)]

mod replay;
mod run;

pub use replay::Replay;
