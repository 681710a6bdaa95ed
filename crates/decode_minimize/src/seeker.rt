//! A solver that is asked for better and better solutions, and what is the best that it was told or found.

ghost use Rattle.std.specs.Prelude.{◌≡◌, ◌+◌, ◌<◌, ◌≤◌, ◌^◌, [], None, Some, Ok, IfOk, IfSome};
ghost use Rattle.std.specs.Prelude.{length};
ghost use Rattle.order_ints.specs.Place.{AtomBelow, InRange};
ghost use Rattle.order_ints.specs.View.{resolve};
ghost use Rattle.clause_rings.specs.Clauses.{AreApartIn};
ghost use Rattle.proof_check.specs.Lrat.{Lrat};
ghost use Rattle.learning_solver.specs.Log.{additions, IsFreshLog};
ghost use Rattle.learning_solver.specs.Outcome.{most_learned};
ghost use Rattle.answer_document.specs.Valid.{AreReadableLines};
ghost use Rattle.decode_minimize.specs.Objectives.{bound_of, IsObjective};
ghost use Rattle.decode_minimize.specs.Rounds.{IsRound};
ghost use Rattle.decode_minimize.specs.Incumbents.{incumbent_behind, round_of, IsValued};

use crate::asking::{Ended, Round, ask_bound, solver_of};
use crate::improving::{Best, Sought, best_of};
use crate::solved::Names;
use crate::targets::Targets;
use bee_list::Sequence;
use learning_solver::{Aim, Solver};
use order_ints::{Atom, Cnf};
use proof_check::ProofLine;
use search_options::SearchOptions;
use search_watcher::Watcher;
use std::alloc::{AllocError, Global};

/// A solver that seeks the best value of an integer, and its incumbent: the value of the last solution that it found,
/// or that it was begun with. Both are private, so that whoever makes its rounds can't lose what one of them found.
#[derive(Drop)]
pub struct Seeker<'a> {
    solver: Solver<'a>,
    incumbent: Option<i64>,
    targets: Targets,
}

/// The log of a seeker, and its incumbent. None makes one but a seeker.
#[derive(Drop)]
pub struct SeekerLog {
    lines: Sequence<ProofLine>,
    incumbent: Option<i64>,
}

/// What a round of a seeker came to.
#[derive(Drop)]
pub enum ValuedRound {
    /// A solution, which is the incumbent from then on.
    Better(Best),
    /// None was found, and this is how the search ended.
    Last(Ended),
}

impl<'a> Seeker<'a> {
    /// A seeker of which no solution is known. Its first round decides first what is wished for.
    pub fn with(names: &Names<'_>, cnf: &'a Cnf) -> Result<Seeker<'a>, AllocError>
        requires vars { cnf.now.vars ≤ 2 ^ 27 }
        requires in_range { InRange cnf.now }
        requires differ { AreApartIn cnf.now }
        ensures solver { IfOk result (λ s. s.solver ≡ record { cnf = cnf.entry.now; log = [] }) }
        ensures incumbent { IfOk result (λ s. s.incumbent ≡ None) }
    {
        let solver = solver_of(names, cnf)?;
        Ok(Seeker {
            solver,
            incumbent: None,
            targets: Targets::new(names.alloc),
        })
    }

    /// A seeker that is begun with a solution.
    pub fn behind(alloc: Global, cnf: &'a Cnf, best: &Best) -> Result<Seeker<'a>, AllocError>
        requires vars { cnf.now.vars ≤ 2 ^ 27 }
        requires in_range { InRange cnf.now }
        requires differ { AreApartIn cnf.now }
        ensures solver { IfOk result (λ s. s.solver ≡ record { cnf = cnf.entry.now; log = [] }) }
        ensures incumbent { IfOk result (λ s. s.incumbent ≡ Some best.now.number) }
    {
        let solver = Solver::with(alloc, cnf)?;
        Ok(Seeker {
            solver,
            incumbent: Some(best.number),
            targets: Targets::new(alloc),
        })
    }

    /// Where a solution is known, saved phases are near it, and the last round, which finds none, is the longest. Much
    /// better values are decided first, where the search restarts: without restarts it couldn't leave them again.
    /// Nothing is wished for any longer.
    fn set_aim(&mut self, sought: &Sought<'_>, options: SearchOptions) -> Result<(), AllocError>
        requires { IsObjective (length sought.now.view.now + 1) sought.now.integer.now }
        ensures solver { self.new.solver ≡ self.old.solver }
        ensures incumbent { self.new.incumbent ≡ self.old.incumbent }
    {
        let Some(number) = self.incumbent else {
            return Ok(());
        };
        self.solver.set_aim(Aim::Refutation);
        if options.restart {
            self.targets.give_up(self.solver.given_up());
            self.targets.aim(sought, number)?;
        }
        self.solver.set_targets(self.targets.lits())
    }

    /// Asks for a solution that breaks a bound, which is that of the incumbent, where there is one: so what is found is
    /// better, and is the incumbent from then on.
    pub fn ask<W: Watcher>(
        &mut self,
        sought: &Sought<'_>,
        bound: Atom,
        options: SearchOptions,
        watcher: &mut W,
    ) -> Result<ValuedRound, AllocError>
        requires objective { IsObjective (length sought.now.view.now + 1) sought.now.integer.now }
        requires below { AtomBelow (self.old.solver.cnf.vars + 1) bound }
        requires better { IfSome self.old.incumbent
            (λ n. bound ≡ resolve sought.now.view.now (bound_of sought.now.direction sought.now.integer.now n)) }
        requires budget { additions self.old.solver.log ≤ options.budget }
        ensures cnf { self.new.solver.cnf ≡ self.old.solver.cnf }
        ensures round { IfOk result (λ s. IsRound self.new.solver bound (round_of s)) }
        ensures number { IfOk result (IsValued sought.now) }
        ensures incumbent { IfOk result (λ s. self.new.incumbent ≡ incumbent_behind self.old.incumbent s) }
        ensures spent { result ≡ Ok (ValuedRound.Last Ended.Spent) → additions self.new.solver.log ≡ options.budget }
        ensures spent_early { result ≡ Ok (ValuedRound.Last Ended.Spent) → additions self.new.solver.log
            < additions self.old.solver.log + most_learned options.restart self.old.solver.cnf.vars }
        ensures within { additions self.new.solver.log ≤ options.budget }
        ensures most { additions self.new.solver.log
            ≤ additions self.old.solver.log + most_learned options.restart self.old.solver.cnf.vars }
        ensures unasked { bound ≡ Atom.True → additions self.new.solver.log ≡ additions self.old.solver.log }
    {
        self.set_aim(sought, options)?;
        match ask_bound(&mut self.solver, bound, options, watcher)? {
            Round::Better(values) => {
                let best = best_of(sought, values);
                self.incumbent = Some(best.number);
                Ok(ValuedRound::Better(best))
            }
            Round::Last(ended) => Ok(ValuedRound::Last(ended)),
        }
    }

    /// Its log, with the incumbent.
    pub fn into_log(self) -> SeekerLog
        ensures lines { result.lines ≡ self.entry.solver.log }
        ensures incumbent { result.incumbent ≡ self.entry.incumbent }
        ensures accepted { Lrat self.entry.solver.cnf result.lines }
        ensures fresh { IsFreshLog self.entry.solver.cnf result.lines }
        ensures readable { AreReadableLines result.lines }
    {
        let Seeker {
            solver,
            incumbent,
            ..
        } = self;
        SeekerLog {
            lines: solver.into_log(),
            incumbent,
        }
    }
}

impl SeekerLog {
    /// The log.
    pub fn lines(&self) -> &[ProofLine]
        ensures { result.now ≡ self.now.lines }
    {
        self.lines.as_slice()
    }

    /// The log alone.
    pub fn into_lines(self) -> Sequence<ProofLine>
        ensures { result ≡ self.lines }
    {
        let SeekerLog { lines, .. } = self;
        lines
    }
}
