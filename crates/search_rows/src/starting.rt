//! Searches that start otherwise, worked out by hand: with literals that are decided first, and with the order and the
//! phases of another solver's end.

ghost use Rattle.std.specs.Prelude.{◌≡◌};

use crate::asking_again::asked;
use crate::words::{cnf, literal, literals};
use learning_solver::{Found, Solver};
use std::alloc::{AllocError, Global};
use std::test::Fail;

/// How many variables there are, the clauses, the literals that are decided first, and the values that are found.
type FirstRow = (
    u32,
    &'static [&'static [i32]],
    &'static [i32],
    &'static [bool],
);

static FIRST: [FirstRow; 6] = [
    // As the list gives them, and the others false.
    (3, &[], &[1, -2, 3], &[true, false, true]),
    (3, &[], &[2], &[false, true, false]),
    (3, &[], &[], &[false, false, false]),
    // In its order: what is decided first makes the other false.
    (3, &[&[-1, -2]], &[1, 2], &[true, false, false]),
    (3, &[&[-1, -2]], &[2, 1], &[false, true, false]),
    // Literals of other variables are passed over.
    (2, &[], &[3, 0, 2], &[false, true]),
];

/// How many variables there are, the clauses, an assumption, the clauses of the solver that goes on, and its values.
type AnewRow = (
    u32,
    &'static [&'static [i32]],
    i32,
    &'static [&'static [i32]],
    &'static [bool],
);

static ANEW: [AnewRow; 3] = [
    // Variables keep the phases that they had last.
    (2, &[], 1, &[], &[true, false]),
    (2, &[], -1, &[], &[false, false]),
    // The other clauses count, not those before.
    (2, &[&[-1, -2]], 2, &[&[-1, 2]], &[false, true]),
];

/// Whether a solver finds these values.
fn finds(solver: &mut Solver<'_>, vars: u32, want: &[bool]) -> Result<bool, AllocError>
    requires { solver.old.cnf.vars ≡ vars }
{
    match asked(solver, vars, literal(0), u64::MAX, true)? {
        Some(Found::Sat(values)) => Ok(values.as_slice() == want),
        _ => Ok(false),
    }
}

/// Whether a solver that decides some literals first finds the values of a row.
fn first_row(alloc: Global, row: &FirstRow) -> Result<bool, Fail> {
    let clauses = cnf(alloc, row.0, row.1)?;
    let first = literals(alloc, row.2)?;
    let mut solver = Solver::with_first(alloc, &clauses, &first)?;
    Ok(finds(&mut solver, clauses.vars, row.3)?)
}

/// Asks one solver under an assumption and without, so that it goes back, and whether one that goes on with its order
/// finds the values of a row.
fn anew_row(alloc: Global, row: &AnewRow) -> Result<bool, Fail> {
    let before = cnf(alloc, row.0, row.1)?;
    let mut solver = Solver::with(alloc, &before)?;
    let _under = asked(&mut solver, row.0, literal(row.2), u64::MAX, true)?;
    let _without = asked(&mut solver, row.0, literal(0), u64::MAX, true)?;
    let order = solver.into_order();
    let behind = cnf(alloc, row.0, row.3)?;
    let mut next = Solver::anew(alloc, &behind, order)?;
    Ok(finds(&mut next, behind.vars, row.4)?)
}

#[test]
fn listed_literals_come_first(rt: HostRuntime) -> Result<(), Fail> {
    for row in &FIRST {
        let is_found = first_row(rt.alloc(), row)?;
        assert!(rt; is_found, "{:?} {:?}", row.1, row.2);
    }
    Ok(())
}

#[test]
fn orders_are_handed_on(rt: HostRuntime) -> Result<(), Fail> {
    for row in &ANEW {
        let is_found = anew_row(rt.alloc(), row)?;
        assert!(rt; is_found, "{:?} {}", row.3, row.2);
    }
    Ok(())
}
