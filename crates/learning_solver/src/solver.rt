//! The solver that callers see: a CNF, and a log that stands for itself.

ghost use Rattle.std.specs.Prelude.{◌≡◌, ◌+◌, ◌<◌, ◌≤◌, ◌^◌, [], length, IfOk};
ghost use Rattle.std.specs.Option.{ForSome};
ghost use Rattle.order_ints.specs.Place.{LitBelow, InRange};
ghost use Rattle.clause_rings.specs.Clauses.{AreApartIn};
ghost use Rattle.proof_check.specs.Lines.{Each, IsReadable};
ghost use Rattle.proof_check.specs.Lrat.{Lrat};
ghost use Rattle.learning_solver.specs.Log.{additions, GoesOn, IsFreshLog};
ghost use Rattle.learning_solver.specs.Outcome.{Answers, most_learned};

use crate::found::Found;
use crate::order::Order;
use crate::phases::Aim;
use crate::search::Search;
use crate::task::Task;
use bee_list::Sequence;
use order_ints::{Cnf, Lit};
use proof_check::ProofLine;
use search_watcher::{Silent, Watcher};
use std::alloc::{AllocError, Global};
use std::marker::Model;

/// A solver of a CNF that it borrows, and its log.
#[derive(Drop)]
pub struct Solver<'a> {
    search: Search<'a>,
}

impl<'a> Model for Solver<'a> {
    ghost use Rattle.learning_solver.specs.Outcome.{Logged};
    ghost use Rattle.learning_solver.specs.Solving.{logged, IsSolver};

    ghost Value = { Logged };

    ghost view = { logged };

    ghost invariant = { IsSolver };
}

impl<'a> Solver<'a> {
    /// A solver of a CNF, with an empty log.
    pub fn with(alloc: Global, cnf: &'a Cnf) -> Result<Solver<'a>, AllocError>
        requires vars { cnf.now.vars ≤ 2 ^ 27 }
        requires in_range { InRange cnf.now }
        requires differ { AreApartIn cnf.now }
        ensures { IfOk result (λ s. s ≡ record { cnf = cnf.entry.now; log = [] }) }
    {
        let order = Order::with(alloc, cnf.vars)?;
        Solver::anew(alloc, cnf, order)
    }

    /// A solver of a CNF, with an empty log, for one solution after another: it decides the literals of a list first,
    /// as the list gives them, restarts never, whatever is asked for, and deletes learned clauses often. Literals of
    /// other variables than the CNF's are passed over. It copies the list.
    pub fn with_first(alloc: Global, cnf: &'a Cnf, first: &[Lit]) -> Result<Solver<'a>, AllocError>
        requires vars { cnf.now.vars ≤ 2 ^ 27 }
        requires in_range { InRange cnf.now }
        requires differ { AreApartIn cnf.now }
        ensures { IfOk result (λ s. s ≡ record { cnf = cnf.entry.now; log = [] }) }
    {
        let order = Order::with_first(alloc, cnf.vars, first)?;
        Solver::anew(alloc, cnf, order)
    }

    /// A solver of a CNF, with an empty log, that goes on with the order and the phases of another one's end
    /// (`into_order`).
    pub fn anew(alloc: Global, cnf: &'a Cnf, order: Order) -> Result<Solver<'a>, AllocError>
        requires vars { cnf.now.vars ≤ 2 ^ 27 }
        requires in_range { InRange cnf.now }
        requires differ { AreApartIn cnf.now }
        requires order { order ≡ cnf.now.vars }
        ensures { IfOk result (λ s. s ≡ record { cnf = cnf.entry.now; log = [] }) }
    {
        let search = Search::with(alloc, cnf, order)?;
        Ok(Solver { search })
    }

    /// The order of decisions and the phases, for the solver of another CNF with as many variables.
    pub fn into_order(self) -> Order
        ensures { result ≡ self.entry.cnf.vars }
    {
        let Solver { search } = self;
        search.into_order()
    }

    /// The next calls look for this. At first solvers look for a refutation.
    pub fn set_aim(&mut self, aim: Aim)
        ensures { self.new ≡ self.old }
    {
        self.search.order.set_aim(aim);
    }

    /// Decides these literals before all others from here on, behind the assumption, in place of those of before. Each
    /// is given up where it is refuted, or where it was decided in many conflicts. Literals of other variables than the
    /// CNF's are passed over. It copies the list.
    pub fn set_targets(&mut self, targets: &[Lit]) -> Result<(), AllocError>
        ensures { self.new ≡ self.old }
    {
        self.search.order.set_targets(targets)
    }

    /// Decides these literals before all others from here on, in place of those of before. They are given up together,
    /// after many conflicts. Literals of other variables than the CNF's are passed over. It copies the list.
    pub fn set_wish(&mut self, wish: &[Lit]) -> Result<(), AllocError>
        ensures { self.new ≡ self.old }
    {
        self.search.order.set_wish(wish)
    }

    /// How many of the literals that are decided first were given up.
    pub fn given_up(&self) -> usize {
        self.search.order.given_up()
    }

    /// Searches for truth values that satisfy the CNF and the assumption, or for a clause that refutes them, until the
    /// log has as many additions as the budget. It may be called again, whatever it answered.
    pub fn solve(
        &mut self,
        assumption: Option<Lit>,
        budget: u64,
        restart: bool,
    ) -> Result<Found, AllocError>
        requires in_range { ForSome assumption (LitBelow (self.old.cnf.vars + 1)) }
        requires budget { additions self.old.log ≤ budget }

        // The CNF stays, and so do the lines of the log, also where memory was wanting.
        ensures cnf { self.new.cnf ≡ self.old.cnf }
        ensures log { GoesOn self.old.log self.new.log }

        // The log is accepted to its last line; its additions are new where they stand, its deletions name additions
        // alone, behind the last id, and each line can be read back from its text.
        ensures accepted { Lrat self.new.cnf self.new.log }
        ensures fresh { IsFreshLog self.new.cnf self.new.log }
        ensures readable { Each IsReadable self.new.log }

        // What is found, and what it may have cost.
        ensures found { IfOk result (Answers self.new assumption) }
        ensures spent { result ≡ Ok Found.Spent → additions self.new.log ≡ budget }
        ensures spent_early { result ≡ Ok Found.Spent
            → additions self.new.log < additions self.old.log + most_learned restart self.old.cnf.vars }
        ensures within { additions self.new.log ≤ budget }
        ensures most { additions self.new.log
            ≤ additions self.old.log + most_learned restart self.old.cnf.vars }
    {
        let mut silent = Silent;
        self.solve_watched(assumption, budget, restart, &mut silent)
    }

    /// Searches as `solve` does, and behind each clause that it learned tells a watcher how many the log adds by then.
    pub fn solve_watched<W: Watcher>(
        &mut self,
        assumption: Option<Lit>,
        budget: u64,
        restart: bool,
        watcher: &mut W,
    ) -> Result<Found, AllocError>
        requires in_range { ForSome assumption (LitBelow (self.old.cnf.vars + 1)) }
        requires budget { additions self.old.log ≤ budget }

        // The CNF stays, and so do the lines of the log, also where memory was wanting.
        ensures cnf { self.new.cnf ≡ self.old.cnf }
        ensures log { GoesOn self.old.log self.new.log }

        // The log is accepted to its last line; its additions are new where they stand, its deletions name additions
        // alone, behind the last id, and each line can be read back from its text.
        ensures accepted { Lrat self.new.cnf self.new.log }
        ensures fresh { IsFreshLog self.new.cnf self.new.log }
        ensures readable { Each IsReadable self.new.log }

        // What is found, and what it may have cost.
        ensures found { IfOk result (Answers self.new assumption) }
        ensures spent { result ≡ Ok Found.Spent → additions self.new.log ≡ budget }
        ensures spent_early { result ≡ Ok Found.Spent
            → additions self.new.log < additions self.old.log + most_learned restart self.old.cnf.vars }
        ensures within { additions self.new.log ≤ budget }
        ensures most { additions self.new.log
            ≤ additions self.old.log + most_learned restart self.old.cnf.vars }
    {
        let task = Task { assumption, budget };
        self.search.find_answer(task, restart, watcher)
    }

    /// How many clauses the log adds. It takes constant time.
    pub fn added(&self) -> u64
        ensures { result ≡ additions self.now.log }
    {
        self.search.added
    }

    /// The log: each line follows from the CNF and those before it.
    pub fn log(&self) -> &[ProofLine]
        ensures log { result.now ≡ self.now.log }
        ensures accepted { Lrat self.now.cnf self.now.log }
        ensures fresh { IsFreshLog self.now.cnf self.now.log }
        ensures readable { Each IsReadable self.now.log }
    {
        self.search.lines.as_slice()
    }

    /// The log, without memory.
    pub fn into_log(self) -> Sequence<ProofLine>
        ensures log { result ≡ self.entry.log }
        ensures accepted { Lrat self.entry.cnf result }
        ensures fresh { IsFreshLog self.entry.cnf result }
        ensures readable { Each IsReadable result }
    {
        let Solver { search } = self;
        search.into_lines()
    }
}
