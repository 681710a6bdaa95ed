//! The rounds of a solver, from its first one to its log.

ghost use Rattle.std.specs.Prelude.{◌≡◌, ◌≤◌, Some, IfOk};
ghost use Rattle.learning_solver.specs.Log.{additions};
ghost use Rattle.learning_solver.specs.Outcome.{most_learned};
ghost use Rattle.decode_minimize.specs.Rounds.{AreSatisfying};
ghost use Rattle.decode_minimize.specs.Seeking.{IsSeeking};
ghost use Rattle.decode_minimize.specs.Heard.{IsHeard};
ghost use Rattle.decode_minimize.specs.Solved.{IsSolvable, IsSeekable, IsProgress, IsFirst};

use crate::asking::Ended;
use crate::improving::{Best, Sought, best_of, improve};
use crate::seeker::{Seeker, ValuedRound};
use crate::solved::{First, Progress};
use crate::telling::tell;
use crate::watching::SolutionWatcher;
use bee_list::Sequence;
use order_ints::{Atom, Cnf};
use search_options::SearchOptions;
use std::alloc::AllocError;

/// The rounds of a seeker from a solution on. It may have made one search before.
fn rounds_from<W: SolutionWatcher>(
    seeker: Seeker<'_>,
    sought: &Sought<'_>,
    best: Best,
    options: SearchOptions,
    watcher: &mut W,
) -> Result<Progress, AllocError>
    requires seeking { IsSeeking seeker.solver sought.now best }
    requires kept { seeker.incumbent ≡ Some best.number }
    requires budget { additions seeker.solver.log ≤ options.budget }
    requires most { additions seeker.solver.log ≤ most_learned options.restart seeker.solver.cnf.vars }
    requires heard { IsHeard W.heard seeker.solver.cnf sought.now.names }
    ensures { IfOk result (IsProgress seeker.entry.solver.cnf sought.now options) }
{
    let mut seeker = seeker;
    let mut best = best;
    let ended = improve(&mut seeker, sought, &mut best, options, watcher)?;
    Ok(Progress {
        proof: seeker.into_log(),
        best,
        ended,
    })
}

/// All rounds of an objective. The first one asks for any solution. Each solution that is found is told.
pub fn first_rounds<W: SolutionWatcher>(
    cnf: &Cnf,
    sought: &Sought<'_>,
    options: SearchOptions,
    watcher: &mut W,
) -> Result<First, AllocError>
    requires solvable { IsSolvable cnf.now }
    requires seekable { IsSeekable cnf.now sought.now }
    requires heard { IsHeard W.heard cnf.now sought.now.names }
    ensures { IfOk result (IsFirst cnf.now sought.now options) }
{
    let mut seeker = Seeker::with(&sought.names, cnf)?;
    match seeker.ask(sought, Atom::False, options, watcher)? {
        ValuedRound::Last(Ended::Shown) => Ok(First::Refuted(seeker.into_log().into_lines())),
        ValuedRound::Last(Ended::Spent) => Ok(First::GivenUp(seeker.into_log().into_lines())),
        ValuedRound::Better(best) => {
            tell(&sought.names, best.values.as_slice(), watcher);
            let progress = rounds_from(seeker, sought, best, options, watcher)?;
            Ok(First::Found(progress))
        }
    }
}

/// The rounds of an objective from a solution on, which was told before.
pub fn rounds_behind<W: SolutionWatcher>(
    cnf: &Cnf,
    sought: &Sought<'_>,
    values: Sequence<bool>,
    options: SearchOptions,
    watcher: &mut W,
) -> Result<Progress, AllocError>
    requires solvable { IsSolvable cnf.now }
    requires seekable { IsSeekable cnf.now sought.now }
    requires heard { IsHeard W.heard cnf.now sought.now.names }
    requires satisfying { AreSatisfying cnf.now values }
    ensures { IfOk result (IsProgress cnf.now sought.now options) }
{
    let best = best_of(sought, values);
    let seeker = Seeker::behind(sought.names.alloc, cnf, &best)?;
    let progress = rounds_from(seeker, sought, best, options, watcher)?;
    Ok(progress)
}
