//! The rounds of one objective.

ghost use Rattle.std.specs.Prelude.{◌≡◌, ◌+◌, ◌≤◌, Some, IfOk, length};
ghost use Rattle.order_ints.specs.OrderValue.{value_of};
ghost use Rattle.order_ints.specs.Truth.{valuation_of};
ghost use Rattle.state_compile.specs.StandsFor.{read_by};
ghost use Rattle.decode_minimize.specs.Objectives.{IsObjective};
ghost use Rattle.learning_solver.specs.Log.{additions};
ghost use Rattle.decode_minimize.specs.Seeking.{IsSeeking, IsTurned, IsImproved};
ghost use Rattle.decode_minimize.specs.Heard.{IsHeard};

use crate::asking::Ended;
use crate::objective::{Direction, bound_of, value_under};
use crate::seeker::{Seeker, ValuedRound};
use crate::solved::Names;
use crate::telling::tell;
use crate::watching::SolutionWatcher;
use bee_list::Sequence;
use order_ints::{Atom, OrdInt, resolve};
use search_options::SearchOptions;
use std::alloc::AllocError;

/// What is sought: the best value of an integer, whose variables a view reads; and the names by which solutions are
/// told.
#[derive(Clone, Copy)]
pub struct Sought<'a> {
    /// The integer.
    pub integer: &'a OrdInt,
    /// The label of each variable, that of variable 1 first.
    pub view: &'a [Atom],
    /// Which of its values is best.
    pub direction: Direction,
    /// The names that have values in a solution.
    pub names: Names<'a>,
}

/// The best solution so far.
#[derive(Drop)]
pub struct Best {
    /// Truth values of all variables.
    pub values: Sequence<bool>,
    /// The value of what is sought under these.
    pub number: i64,
}

/// A solution, with its value of what is sought.
pub fn best_of(sought: &Sought<'_>, values: Sequence<bool>) -> Best
    requires { IsObjective (length sought.now.view.now + 1) sought.now.integer.now }
    ensures values { result.values ≡ values }
    ensures number { result.number
        ≡ value_of (read_by sought.now.view.now (valuation_of values)) sought.now.integer.now }
{
    let number = value_under(sought.integer, sought.view, values.as_slice());
    Best { values, number }
}

/// One round: asks for a better value than the best one so far, and tells of it; where none is found, how the search
/// ended.
fn improve_once<W: SolutionWatcher>(
    seeker: &mut Seeker<'_>,
    sought: &Sought<'_>,
    best: &mut Best,
    options: SearchOptions,
    watcher: &mut W,
) -> Result<Option<Ended>, AllocError>
    requires seeking { IsSeeking seeker.old.solver sought.now best.old }
    requires kept { seeker.old.incumbent ≡ Some best.old.number }
    requires budget { additions seeker.old.solver.log ≤ options.budget }
    requires heard { IsHeard W.heard seeker.old.solver.cnf sought.now.names }
    ensures cnf { seeker.new.solver.cnf ≡ seeker.old.solver.cnf }
    ensures within { additions seeker.new.solver.log ≤ options.budget }
    ensures seeking { IfOk result (λ t. IsSeeking seeker.new.solver sought.now best.new) }
    ensures kept { IfOk result (λ t. seeker.new.incumbent ≡ Some best.new.number) }
    ensures turned { IfOk result
        (λ t. IsTurned seeker.old.solver seeker.new.solver sought.now options best.old best.new t) }
{
    let bound = resolve(
        sought.view,
        bound_of(sought.direction, sought.integer, best.number),
    );
    match seeker.ask(sought, bound, options, watcher)? {
        ValuedRound::Better(found) => {
            *best = found;
            tell(&sought.names, best.values.as_slice(), watcher);
            Ok(None)
        }
        ValuedRound::Last(ended) => Ok(Some(ended)),
    }
}

/// Rounds to the end of the search. Each takes one search, and each but the last finds a better value. What is best at
/// the end is the last solution that a round found.
pub fn improve<W: SolutionWatcher>(
    seeker: &mut Seeker<'_>,
    sought: &Sought<'_>,
    best: &mut Best,
    options: SearchOptions,
    watcher: &mut W,
) -> Result<Ended, AllocError>
    requires seeking { IsSeeking seeker.old.solver sought.now best.old }
    requires kept { seeker.old.incumbent ≡ Some best.old.number }
    requires budget { additions seeker.old.solver.log ≤ options.budget }
    requires heard { IsHeard W.heard seeker.old.solver.cnf sought.now.names }
    ensures cnf { seeker.new.solver.cnf ≡ seeker.old.solver.cnf }
    ensures within { additions seeker.new.solver.log ≤ options.budget }
    ensures seeking { IfOk result (λ e. IsSeeking seeker.new.solver sought.now best.new) }
    ensures kept { IfOk result (λ e. seeker.new.incumbent ≡ Some best.new.number) }
    ensures improved { IfOk result
        (IsImproved seeker.old.solver seeker.new.solver sought.now options best.old best.new) }
{
    loop {
        if let Some(ended) = improve_once(seeker, sought, best, options, watcher)? {
            return Ok(ended);
        }
    }
}
