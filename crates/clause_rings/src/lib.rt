//! The clauses of a search, its trail, and complete unit propagation by two watched literals.
//!
//! A clause of two literals or more is watched by its first two (Moskewicz, Madigan, Zhao, Zhang
//! and Malik, 2001), and a jump back changes no watch. Each watch is a node of a ring for its
//! literal, so it moves in constant time and no list grows: propagation takes no memory and cannot
//! fail. Beside each node stands a blocker, a literal of the clause; where that is true the clause
//! is not touched (MiniSat; Chu, Harwood and Stuckey, 2008). A clause that comes is not watched at
//! once: it waits in ring 0 until the next `propagate`, which finds the two literals to watch. So
//! clauses may come at any level, and an assignment leaves every clause as it was. Watches and
//! blockers take 24 bytes a clause, rings 16 a variable.
//!
//! What it promises: `propagate` makes literals true only by live clauses that were unit for them
//! (`trail`), changes only places of literals (`clauses`), and answers a live clause that is false
//! (`found`), or none, and then no live clause is false or unit (`none`). `add`, `delete`, `assign`
//! and `backjump` leave exactly what is stated; `reserve` and `with` alone take memory. Between all
//! calls no live clause is false or unit below the current level, and each literal that a clause
//! made true was its only free one (`db`).
//!
//! The guard behind this: where a watched literal is false by an entry that is worked off, some
//! literal of the clause is true at no higher level (`proofs/Guards.antt`). Which ids are new is
//! the concern of what stands above.
#![tactic(auto)]

mod attach;
mod clause_db;
mod looks;
mod moves;
mod propagate;
mod room;
mod walk;
mod watches;

pub use clause_db::{ClauseDb, ClauseRef};
