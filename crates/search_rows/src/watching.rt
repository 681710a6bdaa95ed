//! What a watcher of a search is told: each clause that the log adds, once, with how many there are by then.

ghost use Rattle.std.specs.Prelude.{◌≤◌, ◌^◌};
ghost use Rattle.order_ints.specs.Place.{InRange};
ghost use Rattle.clause_rings.specs.Clauses.{AreApartIn};

use crate::words::cnf;
use learning_solver::Solver;
use order_ints::Cnf;
use search_watcher::Watcher;
use std::alloc::{AllocError, Global};
use std::test::Fail;

/// Counts its calls.
#[derive(Clone, Copy, Debug, PartialEq)]
struct Calls {
    /// How many there were.
    count: u64,
    /// Whether each told its own number.
    in_turn: bool,
}

impl Watcher for Calls {
    fn learned(&mut self, count: u64) {
        self.count = self.count.saturating_add(1);
        self.in_turn = self.in_turn && count == self.count;
    }
}

/// How many variables there are, the clauses, the budget, and how many clauses are learned.
type Row = (u32, &'static [&'static [i32]], u64, u64);

static ROWS: [Row; 6] = [
    // One of one literal, and then the empty one; up to the budget.
    (2, &[&[1, 2], &[1, -2], &[-1, 2], &[-1, -2]], u64::MAX, 2),
    (2, &[&[1, 2], &[1, -2], &[-1, 2], &[-1, -2]], 1, 1),
    (2, &[&[1, 2], &[1, -2], &[-1, 2], &[-1, -2]], 0, 0),
    // The empty one alone.
    (3, &[&[1, 2], &[-2, 3], &[-2, -3], &[-1]], 1, 1),
    // Nothing is learned.
    (2, &[&[1], &[-2]], u64::MAX, 0),
    (1, &[&[]], u64::MAX, 0),
];

/// Searches, and tells the calls and how many clauses the log adds.
fn watched(alloc: Global, cnf: &Cnf, budget: u64) -> Result<(Calls, u64), AllocError>
    requires vars { cnf.now.vars ≤ 2 ^ 27 }
    requires in_range { InRange cnf.now }
    requires apart { AreApartIn cnf.now }
{
    let mut solver = Solver::with(alloc, cnf)?;
    let mut calls = Calls {
        count: 0,
        in_turn: true,
    };
    let _found = solver.solve_watched(None, budget, true, &mut calls)?;
    Ok((calls, solver.added()))
}

/// Whether the calls are as many as a row says, each in its turn, and as many as clauses were added.
fn watched_row(alloc: Global, row: &Row) -> Result<bool, Fail> {
    let clauses = cnf(alloc, row.0, row.1)?;
    let (calls, added) = watched(alloc, &clauses, row.2)?;
    Ok(calls.in_turn && calls.count == row.3 && added == row.3)
}

#[test]
fn learned_clauses_are_told(rt: HostRuntime) -> Result<(), Fail> {
    for row in &ROWS {
        let is_right = watched_row(rt.alloc(), row)?;
        assert!(rt; is_right, "{:?} {}", row.1, row.2);
    }
    Ok(())
}
