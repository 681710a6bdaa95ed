//! Solving the clauses of a compilation for a goal.

ghost use Rattle.std.specs.Prelude.{◌≡◌, ◌+◌, ◌≤◌, None, Some, pos, IfOk, length};
ghost use Rattle.std.specs.Option.{option_map};
ghost use Rattle.order_ints.specs.OrderValue.{value_of};
ghost use Rattle.order_ints.specs.Truth.{valuation_of};
ghost use Rattle.state_compile.specs.StandsFor.{read_by};
ghost use Rattle.model_decode.specs.Short.{AreShort};
ghost use Rattle.answer_document.specs.BoundAtoms.{integer_named};
ghost use Rattle.decode_minimize.specs.Objectives.{IsObjective};
ghost use Rattle.decode_minimize.specs.Solved.{problem_of, IsProblem, IsSeekable, IsProgress, IsAnySolved};
ghost use Rattle.decode_minimize.specs.Heard.{IsHeard};
ghost use Rattle.decode_minimize.specs.Solved.{IsBestSolved, IsSolvedFor, IsMadeOf, second_named, verdict_on};

use crate::asking::{Ended, Round, ask_bound, solver_of};
use crate::fixing::{additions, fix};
use crate::improving::{Best, Sought};
use crate::objective::{Direction, no_worse_of, value_under};
use crate::rounds::{first_rounds, rounds_behind};
use crate::solved::{First, Names, Progress, Solved};
use crate::watching::SolutionWatcher;
use answer_document::{Bounds, Verdict, integer_named};
use bee_list::Sequence;
use model_decode::decode;
use model_meaning::Goal;
use order_ints::{Atom, Cnf, OrdInt, resolve};
use proof_check::ProofLine;
use search_options::SearchOptions;
use search_watcher::Watcher;
use std::alloc::AllocError;

/// What is sought: the best value of the integer at a place, and then that of the one at a second place, where there
/// is one.
#[derive(Clone, Copy)]
struct Objectives {
    direction: Direction,
    place: usize,
    second: Option<usize>,
}

/// That there is no solution.
pub fn refuted(proof: Sequence<ProofLine>) -> Solved
    ensures { result ≡ record { verdict = Verdict.Unsatisfiable; assignment = None; proof = proof; second = None } }
{
    Solved {
        verdict: Verdict::Unsatisfiable,
        assignment: None,
        proof,
        second: None,
    }
}

/// That the budget is spent, and no solution known.
fn given_up(proof: Sequence<ProofLine>, options: SearchOptions) -> Solved
    ensures { result ≡ record {
      verdict = Verdict.Unknown options.budget None;
      assignment = None;
      proof = proof;
      second = None;
    } }
{
    Solved {
        verdict: Verdict::Unknown(options.budget, None),
        assignment: None,
        proof,
        second: None,
    }
}

/// A verdict with the solution that truth values give.
fn with_solution(
    names: &Names<'_>,
    values: &[bool],
    verdict: Verdict,
    proof: Sequence<ProofLine>,
    second: Option<Sequence<ProofLine>>,
) -> Result<Solved, AllocError>
    requires { AreShort names.now.map.now.entries }
    ensures { IfOk result (IsMadeOf names.now values.now verdict proof second) }
{
    let assignment = decode(names.alloc, names.map, names.view, values)?;
    Ok(Solved {
        verdict,
        assignment: Some(assignment),
        proof,
        second,
    })
}

/// Any solution.
fn solve_any<W: Watcher>(
    cnf: &Cnf,
    names: &Names<'_>,
    options: SearchOptions,
    watcher: &mut W,
) -> Result<Solved, AllocError>
    requires { IsProblem (problem_of names.now cnf.now) }
    ensures { IfOk result (IsAnySolved (problem_of names.now cnf.now) options) }
{
    let mut solver = solver_of(names, cnf)?;
    match ask_bound(&mut solver, Atom::False, options, watcher)? {
        Round::Last(Ended::Shown) => Ok(refuted(solver.into_log())),
        Round::Last(Ended::Spent) => Ok(given_up(solver.into_log(), options)),
        Round::Better(values) => {
            let proof = solver.into_log();
            let solved = with_solution(
                names,
                values.as_slice(),
                Verdict::Satisfiable,
                proof,
                None,
            )?;
            Ok(solved)
        }
    }
}

/// The verdict on a solution with these values of the objectives.
fn verdict_on(ended: Ended, bounds: Bounds, options: SearchOptions) -> Verdict
    ensures { result ≡ verdict_on ended bounds options }
{
    match ended {
        Ended::Shown => Verdict::Optimum(bounds),
        Ended::Spent => Verdict::Unknown(options.budget, Some(bounds)),
    }
}

/// What the rounds of one objective came to.
fn with_one(
    names: &Names<'_>,
    progress: Progress,
    options: SearchOptions,
) -> Result<Solved, AllocError>
    requires { AreShort names.now.map.now.entries }
    ensures { IfOk result
        (IsMadeOf names.now progress.best.values
        (verdict_on progress.ended (record { first = progress.best.number; second = None }) options)
        progress.proof.lines None) }
{
    let Progress { proof, best, ended } = progress;
    let bounds = Bounds {
        first: best.number,
        second: None,
    };
    let verdict = verdict_on(ended, bounds, options);
    let proof = proof.into_lines();
    let solved = with_solution(names, best.values.as_slice(), verdict, proof, None)?;
    Ok(solved)
}

/// The best value of one objective.
fn solve_one<W: SolutionWatcher>(
    cnf: &Cnf,
    sought: &Sought<'_>,
    options: SearchOptions,
    watcher: &mut W,
) -> Result<Solved, AllocError>
    requires problem { IsProblem (problem_of sought.now.names cnf.now) }
    requires view { sought.now.view.now ≡ sought.now.names.view.now }
    requires seekable { IsSeekable cnf.now sought.now }
    requires heard { IsHeard W.heard cnf.now sought.now.names }
    ensures { IfOk result
        (IsBestSolved (problem_of sought.now.names cnf.now) options sought.now.direction sought.now.integer.now None) }
{
    match first_rounds(cnf, sought, options, watcher)? {
        First::Refuted(proof) => Ok(refuted(proof)),
        First::GivenUp(proof) => Ok(given_up(proof, options)),
        First::Found(progress) => {
            let solved = with_one(&sought.names, progress, options)?;
            Ok(solved)
        }
    }
}

/// What the rounds of a first objective came to where the budget is spent on it.
fn with_first(
    names: &Names<'_>,
    behind: &Sought<'_>,
    progress: Progress,
    options: SearchOptions,
) -> Result<Solved, AllocError>
    requires short { AreShort names.now.map.now.entries }
    requires objective { IsObjective (length behind.now.view.now + 1) behind.now.integer.now }
    ensures { IfOk result (IsMadeOf names.now progress.best.values
        (Verdict.Unknown options.budget
        (Some
        (record {
          first = progress.best.number;
          second =
              Some (value_of (read_by behind.now.view.now (valuation_of progress.best.values))
              behind.now.integer.now);
        })))
        progress.proof.lines None) }
{
    let Progress { proof, best, .. } = progress;
    let other = value_under(behind.integer, behind.view, best.values.as_slice());
    let bounds = Bounds {
        first: best.number,
        second: Some(other),
    };
    let verdict = Verdict::Unknown(options.budget, Some(bounds));
    let proof = proof.into_lines();
    let solved = with_solution(names, best.values.as_slice(), verdict, proof, None)?;
    Ok(solved)
}

/// What the rounds of a second objective came to, behind those of a first one, which has this number.
fn with_two(
    names: &Names<'_>,
    number: i64,
    proof: Sequence<ProofLine>,
    progress: Progress,
    options: SearchOptions,
) -> Result<Solved, AllocError>
    requires { AreShort names.now.map.now.entries }
    ensures { IfOk result
        (IsMadeOf names.now progress.best.values
        (verdict_on progress.ended (record { first = number; second = Some progress.best.number }) options) proof
        (Some progress.proof.lines)) }
{
    let Progress {
        proof: second,
        best,
        ended,
    } = progress;
    let bounds = Bounds {
        first: number,
        second: Some(best.number),
    };
    let verdict = verdict_on(ended, bounds, options);
    let second = second.into_lines();
    let solved = with_solution(names, best.values.as_slice(), verdict, proof, Some(second))?;
    Ok(solved)
}

/// The best value of a second objective where the first one is fixed. Its derivation is one over the clauses and that,
/// with what is left of the budget.
fn solve_behind<W: SolutionWatcher>(
    cnf: Cnf,
    sought: &Sought<'_>,
    behind: &Sought<'_>,
    progress: Progress,
    options: SearchOptions,
    watcher: &mut W,
) -> Result<Solved, AllocError>
    requires problem { IsProblem (problem_of sought.now.names cnf) }
    requires view { sought.now.view.now ≡ sought.now.names.view.now }
    requires view_behind { behind.now.view.now ≡ sought.now.names.view.now }
    requires direction { behind.now.direction ≡ sought.now.direction }
    requires seekable { IsSeekable cnf sought.now }
    requires seekable_behind { IsSeekable cnf behind.now }
    requires progress { IsProgress cnf sought.now options progress }
    requires shown { progress.ended ≡ Ended.Shown }
    requires heard { IsHeard W.heard cnf behind.now.names }
    ensures { IfOk result
        (IsBestSolved (problem_of sought.now.names cnf) options sought.now.direction sought.now.integer.now
        (Some behind.now.integer.now)) }
{
    let Progress { proof, best, .. } = progress;
    let Best { values, number } = best;
    let fixed = no_worse_of(sought.direction, sought.integer, number);
    let cnf = fix(sought.names.alloc, cnf, resolve(sought.view, fixed))?;
    let left = SearchOptions {
        budget: options.budget - additions(proof.lines()),
        restart: options.restart,
    };
    let last = rounds_behind(&cnf, behind, values, left, watcher)?;
    let solved = with_two(&sought.names, number, proof.into_lines(), last, options)?;
    Ok(solved)
}

/// The best values of two objectives.
fn solve_two<W: SolutionWatcher>(
    cnf: Cnf,
    sought: &Sought<'_>,
    behind: &Sought<'_>,
    options: SearchOptions,
    watcher: &mut W,
) -> Result<Solved, AllocError>
    requires problem { IsProblem (problem_of sought.now.names cnf) }
    requires view { sought.now.view.now ≡ sought.now.names.view.now }
    requires view_behind { behind.now.view.now ≡ sought.now.names.view.now }
    requires direction { behind.now.direction ≡ sought.now.direction }
    requires seekable { IsSeekable cnf sought.now }
    requires seekable_behind { IsSeekable cnf behind.now }
    requires heard { IsHeard W.heard cnf sought.now.names }
    requires heard_behind { IsHeard W.heard cnf behind.now.names }
    ensures { IfOk result
        (IsBestSolved (problem_of sought.now.names cnf) options sought.now.direction sought.now.integer.now
        (Some behind.now.integer.now)) }
{
    match first_rounds(&cnf, sought, options, watcher)? {
        First::Refuted(proof) => Ok(refuted(proof)),
        First::GivenUp(proof) => Ok(given_up(proof, options)),
        First::Found(progress) => match progress.ended {
            Ended::Shown => {
                let solved = solve_behind(cnf, sought, behind, progress, options, watcher)?;
                Ok(solved)
            }
            Ended::Spent => {
                let solved = with_first(&sought.names, behind, progress, options)?;
                Ok(solved)
            }
        },
    }
}

/// The best values of the integers at one place or two.
fn solve_best<W: SolutionWatcher>(
    cnf: Cnf,
    names: &Names<'_>,
    objectives: Objectives,
    options: SearchOptions,
    watcher: &mut W,
) -> Result<Solved, AllocError>
    requires problem { IsProblem (problem_of names.now cnf) }
    requires heard { IsHeard W.heard cnf names.now }
    ensures { IfOk result
        (IsBestSolved (problem_of names.now cnf) options objectives.direction
        (integer_named names.now.map.now.entries objectives.place)
        (second_named names.now.map.now.entries objectives.second)) }
{
    let Objectives {
        direction,
        place,
        second,
    } = objectives;
    let zero = OrdInt::constant(names.alloc, 0)?;
    let entries = names.map.entries.as_slice();
    let sought = Sought {
        integer: integer_named(entries, place, &zero),
        view: names.view,
        direction,
        names: *names,
    };
    match second {
        None => {
            let solved = solve_one(&cnf, &sought, options, watcher)?;
            Ok(solved)
        }
        Some(other) => {
            let behind = Sought {
                integer: integer_named(entries, other, &zero),
                view: names.view,
                direction,
                names: *names,
            };
            let solved = solve_two(cnf, &sought, &behind, options, watcher)?;
            Ok(solved)
        }
    }
}

/// Solves clauses for a goal.
pub fn solve<W: SolutionWatcher>(
    cnf: Cnf,
    names: &Names<'_>,
    goal: Goal,
    options: SearchOptions,
    watcher: &mut W,
) -> Result<Solved, AllocError>
    requires problem { IsProblem (problem_of names.now cnf) }
    requires heard { IsHeard W.heard cnf names.now }
    ensures { IfOk result (IsSolvedFor (problem_of names.now cnf) options goal) }
{
    match goal {
        Goal::Satisfy => {
            let solved = solve_any(&cnf, names, options, watcher)?;
            Ok(solved)
        }
        Goal::Minimize(place, second) => {
            let least = Objectives {
                direction: Direction::Least,
                place,
                second,
            };
            let solved = solve_best(cnf, names, least, options, watcher)?;
            Ok(solved)
        }
        Goal::Maximize(place, second) => {
            let greatest = Objectives {
                direction: Direction::Greatest,
                place,
                second,
            };
            let solved = solve_best(cnf, names, greatest, options, watcher)?;
            Ok(solved)
        }
    }
}
