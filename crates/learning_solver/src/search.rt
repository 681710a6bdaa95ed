//! The search: its parts.

ghost use Rattle.std.specs.Prelude.{◌≡◌, ◌≤◌, ◌^◌, [], IfOk};
ghost use Rattle.order_ints.specs.Place.{InRange};
ghost use Rattle.clause_rings.specs.Clauses.{AreApartIn};

use crate::bumping::Bumped;
use crate::candidates::Candidates;
use crate::order::Order;
use bee_list::Sequence;
use clause_rings::ClauseDb;
use conflict_analysis::Walker;
use order_ints::Cnf;
use proof_check::ProofLine;
use std::alloc::{AllocError, Global};

/// A search over a CNF.
#[derive(Drop)]
pub struct Search<'a> {
    /// The CNF.
    pub cnf: &'a Cnf,
    /// The clauses that live, and the trail.
    pub db: ClauseDb,
    /// The analysis of conflicts.
    pub walker: Walker,
    /// The order of decisions.
    pub order: Order,
    /// The variables of a conflict.
    pub bumped: Bumped,
    /// The learned clauses that may be deleted.
    pub candidates: Candidates,
    /// The log.
    pub lines: Vec<ProofLine>,
    /// How many clauses the CNF has.
    pub base: u64,
    /// How many clauses were added.
    pub added: u64,
}

impl<'a> Search<'a> {
    ghost use Rattle.learning_solver.specs.Searching.{IsSearch};

    /// At the start, with an empty log, and with an order of the CNF's variables.
    pub fn with(alloc: Global, cnf: &'a Cnf, order: Order) -> Result<Search<'a>, AllocError>
        requires order { order ≡ cnf.now.vars }
        requires vars { cnf.now.vars ≤ 2 ^ 27 }
        requires in_range { InRange cnf.now }
        requires differ { AreApartIn cnf.now }
        ensures search { IfOk result IsSearch }
        ensures cnf { IfOk result (λ s. s.cnf ≡ cnf.entry) }
        ensures log { IfOk result (λ s. s.lines.items ≡ []) }
    {
        let db = ClauseDb::with(alloc, cnf)?;
        let walker = Walker::with(alloc, cnf.vars)?;
        let bumped = Bumped::with(alloc, cnf.vars)?;
        let lines = Vec::new(alloc);
        let base = cnf.clauses.len() as u64;
        Ok(Search {
            cnf,
            db,
            walker,
            order,
            bumped,
            candidates: Candidates::new(alloc, base),
            lines,
            base,
            added: 0,
        })
    }

    /// The order of decisions.
    pub fn into_order(self) -> Order
        requires { IsSearch self }
        ensures { result ≡ self.entry.cnf.now.vars }
    {
        let Search { mut order, .. } = self;
        order.refill();
        order
    }

    /// The log.
    pub fn into_lines(self) -> Sequence<ProofLine>
        ensures { result ≡ self.entry.lines.items }
    {
        let Search { lines, .. } = self;
        Sequence::from_vec(lines)
    }
}
