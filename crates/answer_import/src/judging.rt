//! What another solver's text shows of clauses.

ghost use Rattle.std.specs.Prelude.{◌≡◌, ◌+◌, ◌≤◌, ◌^◌, IfOk};
ghost use Rattle.order_ints.specs.OrderedClauses.{ClausesAscend};
ghost use Rattle.order_ints.specs.Place.{InRange};
ghost use Rattle.answer_import.specs.declared.judging.Found.TheVariants as found;
ghost use Rattle.answer_import.specs.Imports.{IsFound};
ghost use Rattle.answer_import.specs.Judging.{IsTask, sought_in, IsFoundBehind, IsFoundBest, IsFoundAlone};
ghost use Rattle.answer_import.specs.Judging.{IsFoundRefuted};

use crate::cut::{Cut, cut_front};
use crate::refuting::refutation;
use answer_document::{Bounds, Verdict};
use bee_list::Sequence;
use dimacs_read::{ValuesTextFault, read_values};
use drup_check::DrupFault;
use model_decode::decode;
use model_meaning::{Assignment, Goal};
use name_map::NameMap;
use objective_bound::{better_than, value_at};
use order_ints::{Atom, Cnf};
use proof_check::ProofLine;
use sat_front::cut_line;
use std::alloc::{AllocError, Global};

/// The clauses of a model, what its names stand for in them, and what is sought.
#[derive(Drop)]
pub(crate) struct Task {
    pub(crate) cnf: Cnf,
    pub(crate) map: NameMap,
    pub(crate) goal: Goal,
}

/// What a text comes to.
#[derive(Drop)]
pub(crate) enum Found {
    /// It shows a verdict, with an assignment where it tells values, and by this derivation.
    Shown(Verdict, Option<Assignment>, Sequence<ProofLine>),
    /// This line is the first that fails.
    Refused(u64),
}

/// A line behind so many others.
fn line_behind(lines: u64, line: u64) -> Result<Found, AllocError>
    ensures { IfOk result (λ f. f ≡ found.Refused (lines + line)) }
{
    match lines.checked_add(line) {
        Some(number) => Ok(Found::Refused(number)),
        None => Err(AllocError),
    }
}

/// A solution is shown by values alone; a line behind them has no place.
fn solution_shown(alloc: Global, cut: &Cut<'_>, given: Assignment) -> Result<Found, AllocError>
    ensures { IfOk result (IsFoundAlone cut.now.rest.now cut.now.front.lines given) }
{
    match cut_line(cut.rest) {
        Some(_) => line_behind(cut.front.lines, 1),
        None => {
            let proof = Sequence::from_vec(Vec::new(alloc));
            Ok(Found::Shown(Verdict::Satisfiable, Some(given), proof))
        }
    }
}

/// A best solution is shown by values and a refutation of the clauses and that the objective is better.
fn best_shown(
    alloc: Global,
    task: Task,
    cut: &Cut<'_>,
    values: &[bool],
    given: Assignment,
) -> Result<Found, AllocError>
    requires { IsTask task.cnf task.map.entries }
    ensures { IfOk result
        (IsFoundBest (sought_in task) values.now cut.now.rest.now cut.now.front.lines given) }
{
    let Task { cnf, map, goal } = task;
    let entries = map.entries.as_slice();
    let number = value_at(alloc, goal, entries, values)?;
    let better = better_than(goal, entries, number);
    match refutation(alloc, cnf, better, cut.rest) {
        Ok(proof) => {
            let bounds = Bounds {
                first: number,
                second: None,
            };
            Ok(Found::Shown(Verdict::Optimum(bounds), Some(given), proof))
        }
        Err(DrupFault::Refused(line)) => line_behind(cut.front.lines, line),
        Err(DrupFault::Memory) => Err(AllocError),
    }
}

/// What values and what stands behind them show.
fn shown_by_values(
    alloc: Global,
    task: Task,
    cut: &Cut<'_>,
    values: &[bool],
) -> Result<Found, AllocError>
    requires { IsTask task.cnf task.map.entries }
    ensures { IfOk result
        (IsFoundBehind (sought_in task) values.now cut.now.rest.now cut.now.front.lines) }
{
    let nothing: &[Atom] = &[];
    let given = decode(alloc, &task.map, nothing, values)?;
    match task.goal {
        Goal::Satisfy => solution_shown(alloc, cut, given),
        Goal::Minimize(_, _) => best_shown(alloc, task, cut, values, given),
        Goal::Maximize(_, _) => best_shown(alloc, task, cut, values, given),
    }
}

/// What a refutation alone shows.
fn shown_alone(alloc: Global, cnf: Cnf, text: &[u8]) -> Result<Found, AllocError>
    requires few { cnf.vars ≤ 2 ^ 27 }
    requires in_range { InRange cnf }
    requires ascend { ClausesAscend cnf.clauses }
    ensures { IfOk result (IsFoundRefuted cnf text.now) }
{
    match refutation(alloc, cnf, Atom::True, text) {
        Ok(proof) => Ok(Found::Shown(Verdict::Unsatisfiable, None, proof)),
        Err(DrupFault::Refused(line)) => Ok(Found::Refused(line)),
        Err(DrupFault::Memory) => Err(AllocError),
    }
}

/// What a text shows of the clauses of a model, or its first line that fails.
pub(crate) fn judge(alloc: Global, task: Task, text: &[u8]) -> Result<Found, AllocError>
    requires { IsTask task.cnf task.map.entries }
    ensures { IfOk result (IsFound (sought_in task) text.now) }
{
    let cut = cut_front(alloc, text)?;
    if !cut.front.told {
        return shown_alone(alloc, task.cnf, text);
    }
    match read_values(alloc, cut.front.text.as_slice(), &task.cnf) {
        Ok(values) => shown_by_values(alloc, task, &cut, values.as_slice()),
        Err(ValuesTextFault::Misfit(line) | ValuesTextFault::Missing(line)) => {
            Ok(Found::Refused(line))
        }
        Err(ValuesTextFault::Memory) => Err(AllocError),
    }
}
