//! One round: whether a bound can be broken.

ghost use Rattle.std.specs.Prelude.{◌≡◌, ◌+◌, ◌<◌, ◌≤◌, ◌^◌, [], Ok, IfOk};
ghost use Rattle.std.specs.Option.{ForSome};
ghost use Rattle.order_ints.specs.Place.{AtomBelow, LitBelow, InRange};
ghost use Rattle.clause_rings.specs.Clauses.{AreApartIn};
ghost use Rattle.learning_solver.specs.Log.{additions};
ghost use Rattle.learning_solver.specs.Outcome.{most_learned};
ghost use Rattle.decode_minimize.specs.Rounds.{IsAsked, IsRound};

use crate::solved::Names;
use crate::wish::wished_literals;
use bee_list::Sequence;
use learning_solver::{Aim, Found, Solver};
use order_ints::{Atom, Cnf, Lit};
use search_options::SearchOptions;
use search_watcher::Watcher;
use std::alloc::AllocError;

/// How a search for something better ended.
#[derive(Clone, Copy)]
pub enum Ended {
    /// Nothing is better, and the log shows it.
    Shown,
    /// The budget is spent.
    Spent,
}

/// What a round came to.
#[derive(Drop)]
pub enum Round {
    /// Truth values that satisfy the clauses and break the bound.
    Better(Sequence<bool>),
    /// No such values were found, and this is how the search ended.
    Last(Ended),
}

/// A solver of which any values are asked first. It decides first what is wished for.
pub fn solver_of<'a>(names: &Names<'_>, cnf: &'a Cnf) -> Result<Solver<'a>, AllocError>
    requires vars { cnf.now.vars ≤ 2 ^ 27 }
    requires in_range { InRange cnf.now }
    requires differ { AreApartIn cnf.now }
    ensures { IfOk result (λ s. s ≡ record { cnf = cnf.entry.now; log = [] }) }
{
    let mut solver = Solver::with(names.alloc, cnf)?;
    solver.set_aim(Aim::Solution);
    let wish = wished_literals(names)?;
    solver.set_wish(wish.as_slice())?;
    Ok(solver)
}

/// Asks for truth values under an assumption, if any.
fn ask<W: Watcher>(
    solver: &mut Solver<'_>,
    assumed: Option<Lit>,
    options: SearchOptions,
    watcher: &mut W,
) -> Result<Round, AllocError>
    requires in_range { ForSome assumed (LitBelow (solver.old.cnf.vars + 1)) }
    requires budget { additions solver.old.log ≤ options.budget }
    ensures cnf { solver.new.cnf ≡ solver.old.cnf }
    ensures asked { IfOk result (IsAsked solver.new assumed) }
    ensures spent { result ≡ Ok (Round.Last Ended.Spent) → additions solver.new.log ≡ options.budget }
    ensures spent_early { result ≡ Ok (Round.Last Ended.Spent)
        → additions solver.new.log < additions solver.old.log + most_learned options.restart solver.old.cnf.vars }
    ensures within { additions solver.new.log ≤ options.budget }
    ensures most { additions solver.new.log
        ≤ additions solver.old.log + most_learned options.restart solver.old.cnf.vars }
{
    match solver.solve_watched(assumed, options.budget, options.restart, watcher)? {
        Found::Sat(values) => Ok(Round::Better(values)),
        Found::Refuted(_) => Ok(Round::Last(Ended::Shown)),
        Found::Spent => Ok(Round::Last(Ended::Spent)),
    }
}

/// Asks for truth values that break a bound. Nothing is asked where the bound is True.
pub fn ask_bound<W: Watcher>(
    solver: &mut Solver<'_>,
    bound: Atom,
    options: SearchOptions,
    watcher: &mut W,
) -> Result<Round, AllocError>
    requires below { AtomBelow (solver.old.cnf.vars + 1) bound }
    requires budget { additions solver.old.log ≤ options.budget }
    ensures cnf { solver.new.cnf ≡ solver.old.cnf }
    ensures round { IfOk result (IsRound solver.new bound) }
    ensures spent { result ≡ Ok (Round.Last Ended.Spent) → additions solver.new.log ≡ options.budget }
    ensures spent_early { result ≡ Ok (Round.Last Ended.Spent)
        → additions solver.new.log < additions solver.old.log + most_learned options.restart solver.old.cnf.vars }
    ensures within { additions solver.new.log ≤ options.budget }
    ensures most { additions solver.new.log
        ≤ additions solver.old.log + most_learned options.restart solver.old.cnf.vars }
    ensures unasked { bound ≡ Atom.True → additions solver.new.log ≡ additions solver.old.log }
{
    match bound {
        Atom::True => Ok(Round::Last(Ended::Shown)),
        Atom::False => {
            let round = ask(solver, None, options, watcher)?;
            Ok(round)
        }
        Atom::Of(literal) => {
            let round = ask(solver, Some(literal.negated()), options, watcher)?;
            Ok(round)
        }
    }
}
