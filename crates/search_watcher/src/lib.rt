//! Who may watch a search: a trait of one method, which a search calls behind each clause that it
//! learned.
//!
//! A search takes seconds or hours, and nobody can say beforehand which; so whoever waits wants to
//! see that it goes on. What to show, how often and where isn't the solver's business: it calls
//! `learned` with a number that it keeps anyway, and the watcher does what it likes with it, as a
//! line on the sink for errors at each thousandth clause.
//!
//! A watcher can't change what is found. It is lent nothing of the search, answers nothing, and has
//! its own state alone; so `solve_watched` of `learning_solver` promises the same whoever watches.
//! Nothing is promised of the calls either: a watcher is for eyes, and no proof rests on what it was
//! told. It is called once for each learned clause, in the loop of the search, so it had better be
//! quick.
//!
//! `Silent` is for whoever doesn't look. The crate uses no other, so that a sink or a count of
//! lines can be a watcher far above the solver.
#![tactic(auto)]

mod silent;
mod watcher;

pub use silent::Silent;
pub use watcher::Watcher;
