//! The solver: a search for a valuation that satisfies a CNF and an assumption, or for a proof that
//! there is none, with a log that is a proof at every moment.
//!
//! Conflict-driven clause learning: propagate; at a conflict learn a clause and jump back; else
//! decide (Marques-Silva and Sakallah, 1996). Decisions are by a queue whose front is moved to what
//! conflicts met (VMTF: Ryan, 2004; Biere and Fröhlich, 2015) and to the reasons of what they
//! learned (Liang and others, 2016), of the first eight free ones the most active (activities:
//! Moskewicz and others, 2001); at first the last variable comes first. A variable gets the phase
//! that it had last (Pipatsrisawat and Darwiche, 2007), or, where a solution is looked for
//! (`set_aim`), in the longest trail without a conflict (Biere and others, 2020). Restarts come by
//! Luby's sequence. Learned clauses go at restarts, half of those with most levels first (Audemard
//! and Simon, 2009), then the longest, with a line in the log each. A solver `with_first` decides
//! listed literals before all others, keeps no activities, never restarts, and deletes often: for
//! one solution after another; its order and phases go on in the next one (`into_order`, `anew`). A
//! clause, its line and the room for both are made before anything changes (`Lesson`), so wherever
//! memory is refused the log is whole and the call may be made again.
//!
//! What `solve_watched` promises, whoever watches: the log is accepted to its last line (`accepted`),
//! its additions are new and its deletions name additions alone, one at least (`fresh`), so that a
//! CNF with the empty clause has no line (`empty_clause_law`); values satisfy CNF and assumption,
//! and a refutation is a clause that is known (`found`); `Spent` comes where the log's additions
//! number the budget (`spent`), and no call adds more than 2^V clauses, or (V+1) * 2^V with
//! restarts (`most`).
//!
//! Free to be tuned (`tunables`), since no clause names them: decisions, phases, which clauses go,
//! and the tables behind them, which have no invariant: a clause is tested anew when it goes
//! (`is_deletable`), a variable when it is decided.
#![tactic(auto)]

mod adding;
mod bumping;
mod candidates;
mod deciding;
mod deletable;
mod ending;
mod found;
mod heap;
mod laws;
mod learning;
mod lesson;
mod listed;
mod order;
mod phases;
mod profile;
mod reduce;
mod restarts;
mod running;
mod search;
mod sight;
mod solver;
mod task;
mod tunables;

pub use found::Found;
pub use laws::empty_clause_law;
pub use order::Order;
pub use phases::Aim;
pub use sight::analyse;
pub use solver::Solver;
