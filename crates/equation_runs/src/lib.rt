//! Runs of equations: what one look at a core tells one after another, each equation when its turn
//! comes.
//!
//! A core of n steps that told its equations one by one would be trimmed and walked for each of
//! them, which is quadratic. A run is the list that follows from one look. The store changes with
//! each equation that is made, so the next one may not be told any more as it was found; what is
//! promised covers that. A walk that goes on from where the last one ended was rejected: it would
//! have to show that nothing behind it is told anew by a merge, while a run leaves out nothing that
//! the next query would not find.
//!
//! What it promises of `run_of`: it gives exactly the run that "Runs" of `docs/CORES.md` states
//! (`shape`); each of its equations, once those before it are made and nothing else was, is made
//! too or is told of the core as the store has it then (`told`); it is over the core's variables
//! (`below`); one step is counted (`steps`). `run_of_form` and `run_at_edge` promise the same but for
//! `shape`: what they leave out only saves time.
//!
//! The proofs for linked integers are at any number, not only at values: what trimming makes of "at
//! least v" is the atom of the trimmed integer at v. `rule_oracle` takes a run with an equation of
//! Order or Form, and `ledger_replay` makes the lines of a ledger by it.
#![tactic(auto)]

mod bounds;
mod chains;
mod different;
mod free;
mod links;
mod maxima;
mod members;
mod opposites;
mod products;
mod run;
mod twins;

pub use run::{run_at_edge, run_of, run_of_form};
