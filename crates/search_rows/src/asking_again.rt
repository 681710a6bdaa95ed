//! One solver that is asked again and again: what it answers each time, worked out by hand, and its log, which a
//! checker takes whole.

ghost use Rattle.std.specs.Prelude.{◌≡◌, ◌≤◌, ◌^◌};
ghost use Rattle.order_ints.specs.Place.{InRange};

use crate::assuming::told;
use crate::words::{cnf, cnf_of, literal, literals};
use bee_list::Sequence;
use learning_solver::{Found, Solver};
use order_ints::{Cnf, Lit};
use proof_check::{Checker, ProofLine, TakeFault, push_line};
use search_watcher::Silent;
use std::alloc::{AllocError, Global};
use std::test::Fail;

/// The number of an assumption, 0 for none, the budget, and the answer with the lines that come to the log.
type Ask = (i32, u64, &'static str);

/// How many variables there are, the clauses, and what is asked.
type Row = (u32, &'static [&'static [i32]], &'static [Ask]);

static ROWS: [Row; 5] = [
    // Behind each answer each other one: what was learned under one assumption serves the next, and no clause comes
    // twice.
    (
        2,
        &[&[-1, 2], &[-1, -2]],
        &[
            (-1, 0, "true\n"),
            (1, 0, "spent\n"),
            (1, 0, "spent\n"),
            (2, 0, "true\n"),
            (1, 1, "refuted by 3\n3 -1 0 1 2 0\n"),
            (1, 1, "refuted by 3\n"),
            (0, 1, "true\n"),
            (-1, 1, "true\n"),
            (-2, u64::MAX, "true\n"),
            (1, u64::MAX, "refuted by 3\n"),
        ],
    ),
    // The last clause meets the budget, and stays the answer whatever is assumed; what denies an assumption is told at
    // once.
    (
        2,
        &[&[1, 2], &[1, -2], &[-1, 2], &[-1, -2]],
        &[
            (0, 0, "spent\n"),
            (0, 1, "spent\n5 2 0 1 3 0\n"),
            (0, 1, "spent\n"),
            (-1, 1, "spent\n"),
            (-2, 1, "refuted by 5\n"),
            (0, 2, "refuted by 6\n6 0 5 2 4 0\n"),
            (0, 2, "refuted by 6\n"),
            (-1, 2, "refuted by 6\n"),
            (2, u64::MAX, "refuted by 6\n"),
        ],
    ),
    // What denies an assumption is learned, and then the clause of its negation alone.
    (
        3,
        &[&[-1, 2], &[-2, 3], &[-2, -3]],
        &[
            (1, 1, "spent\n4 -2 0 2 3 0\n"),
            (-1, 1, "true\n"),
            (2, 1, "refuted by 4\n"),
            (1, 1, "spent\n"),
            (3, 1, "true\n"),
            (1, 2, "refuted by 5\n5 -1 0 4 1 0\n"),
            (0, 2, "true\n"),
            (1, 2, "refuted by 5\n"),
        ],
    ),
    // The empty clause of the CNF, with no budget at all.
    (
        1,
        &[&[1], &[]],
        &[
            (0, 0, "refuted by 2\n"),
            (1, 0, "refuted by 2\n"),
            (-1, 0, "refuted by 2\n"),
        ],
    ),
    // No clause.
    (
        1,
        &[],
        &[(0, 0, "true\n"), (1, 0, "true\n"), (-1, 0, "true\n")],
    ),
];

/// Asks a solver of so many variables; the answer is none where the variable isn't there, or more clauses were added
/// than the budget has.
pub(super) fn asked(
    solver: &mut Solver<'_>,
    vars: u32,
    assumption: Lit,
    budget: u64,
    restart: bool,
) -> Result<Option<Found>, AllocError>
    requires { solver.old.cnf.vars ≡ vars }
    ensures { solver.new.cnf ≡ solver.old.cnf }
{
    if assumption.var > vars || solver.added() > budget {
        return Ok(None);
    }
    let found = if assumption.var == 0 {
        solver.solve_watched(None, budget, restart, &mut Silent)?
    } else {
        solver.solve_watched(Some(assumption), budget, restart, &mut Silent)?
    };
    Ok(Some(found))
}

/// Whether a checker takes all lines.
pub(super) fn are_taken(alloc: Global, cnf: &Cnf, lines: &[ProofLine]) -> Result<bool, AllocError>
    requires vars { cnf.now.vars ≤ 2 ^ 27 }
    requires in_range { InRange cnf.now }
{
    let mut checker = Checker::with(alloc, cnf)?;
    for line in lines {
        match checker.take(line) {
            Ok(()) => {}
            Err(TakeFault::Memory) => return Err(AllocError),
            Err(TakeFault::Proof(_)) => return Ok(false),
        }
    }
    Ok(true)
}

/// An answer, and the lines behind so many.
fn told_behind(
    alloc: Global,
    found: &Found,
    lines: &[ProofLine],
    count: usize,
) -> Result<Vec<u8>, AllocError> {
    let mut text = told(alloc, found)?.into_bytes();
    for line in lines.iter().skip(count) {
        push_line(&mut text, line)?;
    }
    Ok(text)
}

/// Asks a solver, and tells the answer and the lines that came.
fn ask(
    alloc: Global,
    solver: &mut Solver<'_>,
    vars: u32,
    ask: Ask,
    restart: bool,
) -> Result<Vec<u8>, Fail>
    requires { solver.old.cnf.vars ≡ vars }
    ensures { solver.new.cnf ≡ solver.old.cnf }
{
    let before = solver.log().len();
    match asked(solver, vars, literal(ask.0), ask.1, restart)? {
        Some(found) => Ok(told_behind(alloc, &found, solver.log(), before)?),
        None => Err(Fail::new("may not be asked")),
    }
}

/// Asks a solver. The answer is whether what is told is what a row has, and a checker takes the log.
fn ask_row(
    alloc: Global,
    cnf: &Cnf,
    solver: &mut Solver<'_>,
    row: Ask,
    restart: bool,
) -> Result<bool, Fail>
    requires few { cnf.now.vars ≤ 2 ^ 27 }
    requires in_range { InRange cnf.now }
    requires vars { solver.old.cnf.vars ≡ cnf.now.vars }
    ensures { solver.new.cnf ≡ solver.old.cnf }
{
    let text = ask(alloc, solver, cnf.vars, row, restart)?;
    let is_told = text.as_slice() == row.2.as_bytes();
    Ok(is_told && are_taken(alloc, cnf, solver.log())?)
}

/// Asks a solver again and again. The answer is how many answers are right before the first one that isn't.
fn right_answers(
    alloc: Global,
    cnf: &Cnf,
    solver: &mut Solver<'_>,
    asks: &[Ask],
    restart: bool,
) -> Result<usize, Fail>
    requires few { cnf.now.vars ≤ 2 ^ 27 }
    requires in_range { InRange cnf.now }
    requires vars { solver.old.cnf.vars ≡ cnf.now.vars }
{
    for k in 0..asks.len() {
        if !ask_row(alloc, cnf, solver, asks[k], restart)? {
            return Ok(k);
        }
    }
    Ok(asks.len())
}

/// Asks one solver, with or without restarts.
fn asked_row(alloc: Global, row: &Row, restart: bool) -> Result<usize, Fail> {
    let cnf = cnf(alloc, row.0, row.1)?;
    let mut solver = Solver::with(alloc, &cnf)?;
    right_answers(alloc, &cnf, &mut solver, row.2, restart)
}

#[test]
fn solvers_are_asked_again(rt: HostRuntime) -> Result<(), Fail> {
    for row in &ROWS {
        for restart in [true, false] {
            let right = asked_row(rt.alloc(), row, restart)?;
            assert_eq!(rt; right, row.2.len(), "{:?}", row.1);
        }
    }
    Ok(())
}
