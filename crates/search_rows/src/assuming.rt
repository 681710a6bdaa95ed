//! Searches under an assumption, worked out by hand: what is answered, and the log.

ghost use Rattle.std.specs.Prelude.{◌≤◌, ◌^◌, ◌+◌};
ghost use Rattle.order_ints.specs.Place.{InRange, LitBelow};
ghost use Rattle.clause_rings.specs.Clauses.{AreApartIn};

use crate::words::{cnf, literal};
use learning_solver::{Found, Solver};
use order_ints::{Cnf, Lit};
use proof_check::{ProofLine, push_line};
use search_watcher::Silent;
use std::alloc::{AllocError, Global};
use std::process::Abort;
use std::test::Fail;

/// An answer in words.
pub(super) fn told(alloc: Global, found: &Found) -> Result<String, AllocError> {
    match found {
        Found::Sat(_) => format!(in alloc; "true\n"),
        Found::Refuted(id) => format!(in alloc; "refuted by {id}\n"),
        Found::Spent => format!(in alloc; "spent\n"),
    }
}

/// An answer and a log.
fn told_with(alloc: Global, found: &Found, log: &[ProofLine]) -> Result<Vec<u8>, AllocError> {
    let mut text = told(alloc, found)?.into_bytes();
    for line in log {
        push_line(&mut text, line)?;
    }
    Ok(text)
}

/// Asks a new solver, and tells the answer and the log.
fn asked(
    alloc: Global,
    cnf: &Cnf,
    assumption: Lit,
    budget: u64,
    restart: bool,
) -> Result<Vec<u8>, AllocError>
    requires vars { cnf.now.vars ≤ 2 ^ 27 }
    requires in_range { InRange cnf.now }
    requires apart { AreApartIn cnf.now }
    requires below { LitBelow (cnf.now.vars + 1) assumption }
{
    let mut solver = Solver::with(alloc, cnf)?;
    let found = solver.solve_watched(Some(assumption), budget, restart, &mut Silent)?;
    told_with(alloc, &found, solver.log())
}

/// How many variables there are, the clauses, the assumption, the budget, and what is told.
type Row = (u32, &'static [&'static [i32]], i32, u64, &'static str);

static ROWS: [Row; 15] = [
    // Clauses of one literal alone, and an assumption that one of them denies.
    (2, &[&[1], &[-2]], -2, 0, "true\n"),
    (2, &[&[1], &[-2]], 2, 0, "refuted by 2\n"),
    (2, &[&[1], &[-2]], -1, 0, "refuted by 1\n"),
    // The empty clause.
    (2, &[&[1], &[]], 2, 0, "refuted by 2\n"),
    // Clauses of which one is false at level 0, and another one the negated assumption.
    (2, &[&[1], &[-1]], -1, 0, "refuted by 1\n"),
    // An assumption that is true, and one of a free variable.
    (2, &[&[1]], 1, 0, "true\n"),
    (2, &[&[1]], 2, 0, "true\n"),
    (2, &[&[1]], -2, 0, "true\n"),
    // One that is false at level 0, by a clause that is added.
    (2, &[&[1], &[-1, 2]], -2, 0, "spent\n"),
    (2, &[&[1], &[-1, 2]], -2, 1, "refuted by 3\n3 2 0 1 2 0\n"),
    // One that is refuted at level 1.
    (2, &[&[-1, 2], &[-1, -2]], 1, 0, "spent\n"),
    (
        2,
        &[&[-1, 2], &[-1, -2]],
        1,
        1,
        "refuted by 3\n3 -1 0 1 2 0\n",
    ),
    (2, &[&[-1, 2], &[-1, -2]], -1, 1, "true\n"),
    // One that is denied by what was learned.
    (
        3,
        &[&[-1, 2], &[-2, 3], &[-2, -3]],
        1,
        1,
        "spent\n4 -2 0 2 3 0\n",
    ),
    (
        3,
        &[&[-1, 2], &[-2, 3], &[-2, -3]],
        1,
        2,
        "refuted by 5\n4 -2 0 2 3 0\n5 -1 0 4 1 0\n",
    ),
];

/// Asks with and without restarts, and compares what is told.
fn assumed_row<R: Abort>(rt: &R, alloc: Global, row: Row) -> Result<(), Fail> {
    let (vars, clauses, number, budget, want) = row;
    let cnf = cnf(alloc, vars, clauses)?;
    let assumption = literal(number);
    if assumption.var < 1 || cnf.vars < assumption.var {
        return Err(Fail::new("no assumption"));
    }
    let with = asked(alloc, &cnf, assumption, budget, true)?;
    assert_eq!(rt; with.as_slice(), want.as_bytes(), "{clauses:?} {number}");
    let without = asked(alloc, &cnf, assumption, budget, false)?;
    assert_eq!(rt; without.as_slice(), want.as_bytes(), "{clauses:?} {number}");
    Ok(())
}

#[test]
fn assumptions_are_answered(rt: HostRuntime) -> Result<(), Fail> {
    for row in &ROWS {
        assumed_row(&rt, rt.alloc(), *row)?;
    }
    Ok(())
}
