//! Equations to a fixpoint: a worklist of the cores that may still tell one.
//!
//! A compilation that asked every core again behind each equation would be quadratic. Here a core
//! is asked when it is made, and again only when one of its variables got a new label (as arc
//! consistency asks constraints again: AC-3, Mackworth, 1977). What tells equations is a trait,
//! `Oracle<L>`: one relation between cores and equations, of which nothing is known but what a call
//! answered, and each call counts one step to three on the counter of the ledger `L`. A body that
//! is generic over `L` can open no other counter, and the search through the rules stands in
//! `rule_oracle`, which no such body lists; so the bound on queries cannot be evaded.
//!
//! What it promises of a `Runner`: `saturate` adds lines of equations alone, each told where its
//! step begins, also where memory is refused (`lines`); behind it no pending core tells anything,
//! or a contradiction was found (`closed`); and the counter rises by at most three for each core
//! that was queued and each pair of a core and a variable that got a new label (`counted`). `split`
//! and `encode` make the step of their own line alone; a split queues the parts, an encoding
//! nothing (`step`, `queued`). `least_compound` is exactly the least core that is to be split.
//!
//! Occurrences are handed on where a long list is split, so an id may stand at a variable that its
//! core lost; a walk of the core tells, and a queued core is not looked at. Cores are woken in the
//! order of their ids, those with long lists behind all others, as a query goes along the list;
//! no clause names the order. Marks (`Marks`) say which cores were compound when last asked; they
//! save walks and are no promise.
#![tactic(auto)]

mod asking;
mod cutting;
mod entering;
mod handing;
mod having;
mod id_queue;
mod id_ring;
mod lines;
mod marks;
mod oracle;
mod room;
mod runner;
mod splitting;
mod starting;
mod taking;
mod wake;
mod worklist;

pub use oracle::{Oracle, Silent};
pub use runner::Runner;
