//! One long search in pieces: a solver whose budget is met again and again. Where its log first deletes clauses is
//! counted by hand.

ghost use Rattle.std.specs.Prelude.{◌≡◌, ◌≤◌, ◌^◌, IfOk};
ghost use Rattle.order_ints.specs.Place.{InRange};
ghost use Rattle.clause_rings.specs.Clauses.{AreApartIn};

use crate::asking_again::{are_taken, asked};
use crate::words::{cnf_of, literal, literals};
use bee_list::Sequence;
use learning_solver::{Found, Solver};
use order_ints::{Cnf, Lit};
use proof_check::ProofLine;
use std::alloc::{AllocError, Global};
use std::test::Fail;

/// How many holes there are; of the pigeons there is one more.
const HOLES: u8 = 6;

/// The number of the variable of a pigeon in a hole, both counted from 0.
fn seat(pigeon: u8, hole: u8) -> i32 {
    i32::from(pigeon) * 6 + i32::from(hole) + 1
}

/// Each pigeon sits in a hole.
fn seated(alloc: Global) -> Result<Vec<Sequence<Lit>>, AllocError> {
    let mut clauses = Vec::new(alloc);
    for pigeon in 0..HOLES + 1 {
        let mut numbers = Vec::new(alloc);
        for hole in 0..HOLES {
            numbers.push(seat(pigeon, hole))?;
        }
        clauses.push(Sequence::from_vec(literals(alloc, &numbers)?))?;
    }
    Ok(clauses)
}

/// No two sit in one.
fn push_rivals(
    alloc: Global,
    clauses: &mut Vec<Sequence<Lit>>,
    hole: u8,
) -> Result<(), AllocError> {
    for pigeon in 0..HOLES {
        for rival in pigeon + 1..HOLES + 1 {
            let pair = [
                seat(pigeon, hole).wrapping_neg(),
                seat(rival, hole).wrapping_neg(),
            ];
            clauses.push(Sequence::from_vec(literals(alloc, &pair)?))?;
        }
    }
    Ok(())
}

/// The CNF of the pigeons, which has no solution.
fn pigeons(alloc: Global) -> Result<Cnf, Fail>
    ensures vars { IfOk result (λ cnf. cnf.vars ≡ 42) }
    ensures in_range { IfOk result InRange }
    ensures apart { IfOk result AreApartIn }
{
    let mut clauses = seated(alloc)?;
    for hole in 0..HOLES {
        push_rivals(alloc, &mut clauses, hole)?;
    }
    cnf_of(42, clauses)
}

/// How many calls there are and how many clauses each one may add, how many one more call may, the number of an
/// assumption, 0 for none, and behind how many additions the first clause is deleted. A call restarts behind 64
/// additions of its own, and then behind 64, 128, 64, 64 and 128 more; at the first restart behind 300 conflicts some
/// clauses go.
type Row = (u64, u64, u64, i32, Option<usize>);

static ROWS: [Row; 7] = [
    (1, 330, 0, 0, Some(320)),
    (1, 319, 0, 0, None),
    // A call of 63 never restarts, however many there are; the next one does behind 64.
    (6, 63, 0, 0, None),
    (5, 63, 70, 0, Some(379)),
    (5, 64, 0, 0, Some(320)),
    (4, 90, 0, 0, Some(334)),
    (4, 90, 0, -1, Some(334)),
];

/// Asks for so many more clauses. The answer is whether the budget was met.
fn is_met(solver: &mut Solver<'_>, size: u64, assumption: i32) -> Result<bool, AllocError>
    requires { solver.old.cnf.vars ≡ 42 }
    ensures { solver.new.cnf ≡ solver.old.cnf }
{
    let budget = solver.added().saturating_add(size);
    let found = asked(solver, 42, literal(assumption), budget, true)?;
    Ok(matches!(found, Some(Found::Spent)) && solver.added() == budget)
}

/// Asks so often. The answer is whether each budget was met.
fn are_met(
    solver: &mut Solver<'_>,
    count: u64,
    size: u64,
    assumption: i32,
) -> Result<bool, AllocError>
    requires { solver.old.cnf.vars ≡ 42 }
    ensures { solver.new.cnf ≡ solver.old.cnf }
{
    for _ in 0..count {
        if !is_met(solver, size, assumption)? {
            return Ok(false);
        }
    }
    Ok(true)
}

/// Behind how many lines a log first deletes.
fn first_deletion(lines: &[ProofLine]) -> Option<usize> {
    for k in 0..lines.len() {
        if let ProofLine::Delete { .. } = &lines[k] {
            return Some(k);
        }
    }
    None
}

/// Asks to the end. The answer is whether there is a refutation, and a checker takes the log.
fn is_refuted(alloc: Global, cnf: &Cnf, solver: &mut Solver<'_>) -> Result<bool, AllocError>
    requires vars { cnf.now.vars ≡ 42 }
    requires in_range { InRange cnf.now }
    requires solver { solver.old.cnf.vars ≡ 42 }
{
    let last = asked(solver, 42, literal(0), u64::MAX, true)?;
    Ok(matches!(last, Some(Found::Refuted(_))) && are_taken(alloc, cnf, solver.log())?)
}

/// Asks in pieces. The answer is behind how many lines the log first deletes, where it does so.
fn deletion_in_pieces(solver: &mut Solver<'_>, row: Row) -> Result<Option<usize>, Fail>
    requires { solver.old.cnf.vars ≡ 42 }
    ensures { solver.new.cnf ≡ solver.old.cnf }
{
    if are_met(solver, row.0, row.1, row.3)? && is_met(solver, row.2, row.3)? {
        return Ok(first_deletion(solver.log()));
    }
    Err(Fail::new("a budget wasn't met"))
}

/// Asks in pieces, and then to the end. The answer is behind how many lines the log first deletes, where it does so in
/// the pieces.
fn pieces_row(alloc: Global, cnf: &Cnf, row: Row) -> Result<Option<usize>, Fail>
    requires vars { cnf.now.vars ≡ 42 }
    requires in_range { InRange cnf.now }
    requires apart { AreApartIn cnf.now }
{
    let mut solver = Solver::with(alloc, cnf)?;
    let first = deletion_in_pieces(&mut solver, row)?;
    if is_refuted(alloc, cnf, &mut solver)? {
        return Ok(first);
    }
    Err(Fail::new("no refutation"))
}

#[test]
fn clauses_go_at_restarts(rt: HostRuntime) -> Result<(), Fail> {
    let cnf = pigeons(rt.alloc())?;
    for row in &ROWS {
        let first = pieces_row(rt.alloc(), &cnf, *row)?;
        assert_eq!(rt; first, row.4, "{row:?}");
    }
    Ok(())
}
