//! What solving gives.

use crate::asking::Ended;
use crate::improving::Best;
use crate::seeker::SeekerLog;
use answer_document::Verdict;
use bee_list::Sequence;
use model_meaning::{Assignment, Decl, Goal};
use name_map::NameMap;
use order_ints::Atom;
use proof_check::ProofLine;
use std::alloc::Global;

/// The names of a model, what they stand for, and the store by which that is read.
#[derive(Clone, Copy)]
pub struct Names<'a> {
    /// The memory for what is made of them.
    pub alloc: Global,
    /// The declared names.
    pub decls: &'a [Decl],
    /// What is sought of their values.
    pub goal: Goal,
    /// What each declared name stands for.
    pub map: &'a NameMap,
    /// The label of each variable, that of variable 1 first.
    pub view: &'a [Atom],
    /// The value that is wished for each declared name, where one is.
    pub wish: &'a [Option<i64>],
}

/// An answer without its ledger.
#[derive(Drop)]
pub struct Solved {
    /// What is answered.
    pub verdict: Verdict,
    /// A solution, where the verdict gives one.
    pub assignment: Option<Assignment>,
    /// The derivation over the clauses.
    pub proof: Sequence<ProofLine>,
    /// The derivation over the clauses and that the first objective is fixed.
    pub second: Option<Sequence<ProofLine>>,
}

/// What came of the rounds of an objective, of which a solution is known.
#[derive(Drop)]
pub struct Progress {
    /// The derivation, with the value of the last solution that was found.
    pub proof: SeekerLog,
    /// The best solution that was found: it has that value.
    pub best: Best,
    /// How the search for a better one ended.
    pub ended: Ended,
}

/// What came of the rounds of a first objective.
#[derive(Drop)]
pub enum First {
    /// There is no solution.
    Refuted(Sequence<ProofLine>),
    /// The budget was spent before a solution was found.
    GivenUp(Sequence<ProofLine>),
    /// A solution was found.
    Found(Progress),
}
