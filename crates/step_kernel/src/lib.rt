//! The state of a compilation and its three kinds of step: an equation that a rule states, the
//! splitting of a core, and its encoding. This is the trusted kernel of compiling, in the sense
//! that compiler and checker both make their steps here and nowhere else.
//!
//! A state has the store, the pending cores by id, the clauses, and whether a contradiction was
//! found. `step` of `specs/Steps.antt` is a function of state and line, and each step keeps the
//! models, but for fresh variables. So a ledger, whoever wrote it, leads to clauses that have
//! exactly the solutions. Ids are dense: cores stand in a vector by id, a cursor finds the least,
//! and a core that leaves is let go in constant time. Clauses are one flat list of atoms; they are
//! resolved and put in order when the CNF is asked for. Each step takes its memory before it
//! changes anything.
//!
//! What it promises: `apply` makes exactly the step of a line (`step`), or says what stands against
//! it first (`fault`) and leaves the state (`stays`); `equate_told`, `split_into` and `split_cut`
//! make the same step for who knows the instance or the parts; `cnf` gives exactly the clauses of
//! the moment (`shape`), which a valuation that meets the store satisfies exactly where it is a
//! model, once no core is pending (`models`). Laws: `step_law`, `replay_law`, `start_law`: nothing
//! that a step makes passes the bound on variables, costs and literals that held at the start.
//!
//! `StableMarks` says which cores are known to stand as the store has them, but for their edge,
//! and below which variable; a mark only saves a walk and changes no answer, so a mutant there
//! may still prove. `settle` has a core's edge as the store has it, so that the core is asked and
//! cut where it stands, and `unsettle` puts back what stood there. "Steps" of `docs/CORES.md` says
//! the same in words.
#![tactic(auto)]

mod clause_list;
mod cnf;
mod cursor;
mod cuts;
mod fault;
pub mod laws;
mod lists;
mod settling;
mod stable_marks;
mod state;
mod steps;

pub use core_parts::is_compound;
pub use fault::{ApplyFault, StepFault};
pub use ledger_text::{Line, read_step, write_step};
pub use order_ints::{Cnf, first_false};
pub use state::State;
