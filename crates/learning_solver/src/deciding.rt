//! Decisions: the assumption first, then what the order picks, until every variable has a value.

ghost use Rattle.std.specs.Prelude.{◌≡◌, ◌+◌, ◌<◌, ◌≤◌, ◌⊎◌, ℕ, length, IfOk, IfSome, None};
ghost use Rattle.std.specs.Prelude.{Some, Ok};
ghost use Rattle.std.specs.Option.{ForSome};
ghost use Rattle.order_ints.specs.Place.{LitBelow};
ghost use Rattle.clause_rings.specs.Clauses.{IsComplete};
ghost use Rattle.learning_solver.specs.Order.{IsFreeIn, AllGiven};
ghost use Rattle.learning_solver.specs.Deciding.{Stands, IsTrueIn, AreValues};
ghost use Rattle.learning_solver.specs.Searching.{IsSearch, IsRunning, IsTurned, GoesForward, IsAssumed};

use crate::found::Found;
use crate::restarts::Restarts;
use crate::search::Search;
use crate::task::Task;
use bee_list::Sequence;
use order_ints::Lit;
use std::alloc::AllocError;

/// How an assumption stands where propagation is complete.
#[derive(Clone, Copy)]
pub enum Stand {
    /// It is free, at level 0.
    Open(Lit),
    /// It is false at level 0: its negation is true by a clause.
    Against(Lit, u32),
    /// It is true, or there is none.
    Holds,
}

impl Search<'_> {
    /// How the assumption stands.
    fn stand(&self, assumption: Option<Lit>) -> Stand
        requires search { IsSearch self.now }
        requires in_range { ForSome assumption (LitBelow (self.now.cnf.now.vars + 1)) }
        requires assumed { 1 ≤ self.now.db.trail.level → IsAssumed self.now.db.trail assumption }
        ensures { Stands self.now.db.trail assumption result }
    {
        let Some(a) = assumption else {
            return Stand::Holds;
        };
        if self.db.level() > 0 {
            return Stand::Holds;
        }
        match self.db.entry_of(a.var) {
            None => Stand::Open(a),
            Some(entry) if entry.lit.positive == a.positive => Stand::Holds,
            Some(entry) => match entry.reason {
                Some(reason) => Stand::Against(entry.lit, reason),
                None => unreachable!(),
            },
        }
    }

    /// Decides a literal.
    fn decide(&mut self, l: Lit, task: Task, restarts: &Restarts)
        requires running { IsRunning task restarts.now self.old }
        requires complete { IsComplete self.old.db.trail.entries self.old.db.clauses }
        requires free { IsFreeIn self.old.db.trail l.var }
        requires stands { IsTrueIn self.old.db.trail task.assumption ⊎ (task.assumption ≡ Some l) }
        ensures turned { IsTurned task self.old restarts.now self.new (Ok None) }
        ensures forward { GoesForward self.old self.new }
    {
        let _task = task;
        let _restarts = *restarts;
        self.db.assign(l, None);
    }

    /// The value of each variable.
    fn values(&self) -> Result<Sequence<bool>, AllocError>
        requires { IsSearch self.now }
        ensures { IfOk result (AreValues self.now.db.trail) }
    {
        let vars = self.cnf.vars;
        let alloc = *self.lines.allocator();
        let mut values = Vec::with_capacity(alloc, vars as usize)?;
        for v in 1..vars + 1 {
            values.push(matches!(self.db.value(v), Some(true)))?;
        }
        Ok(Sequence::from_vec(values))
    }

    /// Goes on where no clause is false or unit.
    pub fn go_on(&mut self, task: Task, restarts: &Restarts) -> Result<Option<Found>, AllocError>
        requires running { IsRunning task restarts.now self.old }
        requires complete { IsComplete self.old.db.trail.entries self.old.db.clauses }
        requires in_range { ForSome task.assumption (LitBelow (self.old.cnf.now.vars + 1)) }
        ensures turned { IsTurned task self.old restarts.now self.new result }
        ensures forward { GoesForward self.old self.new }
    {
        match self.stand(task.assumption) {
            Stand::Open(l) => {
                self.decide(l, task, restarts);
                Ok(None)
            }
            Stand::Against(denied, reason) => self.deny(denied, reason, task, restarts),
            Stand::Holds => self.decide_next(task, restarts),
        }
    }

    /// Decides what the order picks; where all variables have values, these are a solution.
    fn decide_next(&mut self, task: Task, restarts: &Restarts) -> Result<Option<Found>, AllocError>
        requires running { IsRunning task restarts.now self.old }
        requires complete { IsComplete self.old.db.trail.entries self.old.db.clauses }
        requires holds { IsTrueIn self.old.db.trail task.assumption }
        ensures turned { IsTurned task self.old restarts.now self.new result }
        ensures forward { GoesForward self.old self.new }
    {
        match self.order.pick(&self.db) {
            Some(l) => {
                self.decide(l, task, restarts);
                Ok(None)
            }
            None => match self.values() {
                Ok(values) => Ok(Some(Found::Sat(values))),
                Err(AllocError) => Err(AllocError),
            },
        }
    }
}
