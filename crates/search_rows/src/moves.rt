//! Moves of a clause store, worked out by hand, and room that deleted clauses give.

use crate::bench::{Bench, Move};
use crate::stores::{add, delete, id_of};
use crate::words::{cnf, literal};
use clause_rings::ClauseDb;
use std::alloc::{AllocError, Global};
use std::process::Abort;
use std::test::Fail;

/// A move, the id of the clause that is false, 0 for none, the level, and the literals that are true, each with its
/// level and the id of its reason, 0 for none.
type Row = (Move<'static>, u64, u32, &'static [(i32, u32, u64)]);

/// Clauses that come and go at any level.
const CLAUSES: &[&[i32]] = &[&[1, 2, 3], &[-1, 4]];

static MOVES: [Row; 29] = [
    (Move::Propagate, 0, 0, &[]),
    (Move::Decide(-2), 0, 1, &[(-2, 1, 0)]),
    (Move::Propagate, 0, 1, &[(-2, 1, 0)]),
    (Move::Decide(-3), 0, 2, &[(-2, 1, 0), (-3, 2, 0)]),
    (
        Move::Propagate,
        0,
        2,
        &[(-2, 1, 0), (-3, 2, 0), (1, 2, 1), (4, 2, 2)],
    ),
    // A clause that is unit at the current level comes, and one that is false there.
    (
        Move::Add(3, &[-4, 5]),
        0,
        2,
        &[(-2, 1, 0), (-3, 2, 0), (1, 2, 1), (4, 2, 2)],
    ),
    (
        Move::Propagate,
        0,
        2,
        &[(-2, 1, 0), (-3, 2, 0), (1, 2, 1), (4, 2, 2), (5, 2, 3)],
    ),
    (
        Move::Add(4, &[-4, -5]),
        0,
        2,
        &[(-2, 1, 0), (-3, 2, 0), (1, 2, 1), (4, 2, 2), (5, 2, 3)],
    ),
    // A conflict is answered twice, and nothing is decided then.
    (
        Move::Propagate,
        4,
        2,
        &[(-2, 1, 0), (-3, 2, 0), (1, 2, 1), (4, 2, 2), (5, 2, 3)],
    ),
    (
        Move::Decide(6),
        4,
        2,
        &[(-2, 1, 0), (-3, 2, 0), (1, 2, 1), (4, 2, 2), (5, 2, 3)],
    ),
    (Move::Back(1), 0, 1, &[(-2, 1, 0)]),
    (Move::Delete(3), 0, 1, &[(-2, 1, 0)]),
    (Move::Add(5, &[2, 4]), 0, 1, &[(-2, 1, 0)]),
    (Move::Propagate, 0, 1, &[(-2, 1, 0), (4, 1, 5), (-5, 1, 4)]),
    (Move::Back(1), 0, 1, &[(-2, 1, 0), (4, 1, 5), (-5, 1, 4)]),
    (Move::Back(0), 0, 0, &[]),
    (Move::Propagate, 0, 0, &[]),
    // A unit clause comes at level 0, and goes on being true behind jumps.
    (Move::Add(6, &[-1]), 0, 0, &[]),
    (Move::Propagate, 0, 0, &[(-1, 0, 6)]),
    (Move::Decide(-3), 0, 1, &[(-1, 0, 6), (-3, 1, 0)]),
    (Move::Propagate, 0, 1, &[(-1, 0, 6), (-3, 1, 0), (2, 1, 1)]),
    (Move::Back(0), 0, 0, &[(-1, 0, 6)]),
    // The empty clause is false until it goes.
    (Move::Add(7, &[]), 0, 0, &[(-1, 0, 6)]),
    (Move::Propagate, 7, 0, &[(-1, 0, 6)]),
    (Move::Delete(7), 0, 0, &[(-1, 0, 6)]),
    (Move::Decide(-2), 0, 1, &[(-1, 0, 6), (-2, 1, 0)]),
    (
        Move::Decide(6),
        0,
        2,
        &[
            (-1, 0, 6),
            (-2, 1, 0),
            (4, 1, 5),
            (3, 1, 1),
            (-5, 1, 4),
            (6, 2, 0),
        ],
    ),
    (
        Move::Back(1),
        0,
        1,
        &[(-1, 0, 6), (-2, 1, 0), (4, 1, 5), (3, 1, 1), (-5, 1, 4)],
    ),
    (
        Move::Propagate,
        0,
        1,
        &[(-1, 0, 6), (-2, 1, 0), (4, 1, 5), (3, 1, 1), (-5, 1, 4)],
    ),
];

/// Unit, empty and repeated clauses.
const STARTING: &[&[i32]] = &[&[1], &[1, 2], &[1, 2], &[-2], &[]];

static STARTS: [Row; 6] = [
    (Move::Propagate, 5, 0, &[(1, 0, 1), (-2, 0, 4)]),
    (Move::Propagate, 5, 0, &[(1, 0, 1), (-2, 0, 4)]),
    (Move::Delete(5), 0, 0, &[(1, 0, 1), (-2, 0, 4)]),
    (Move::Propagate, 0, 0, &[(1, 0, 1), (-2, 0, 4)]),
    (Move::Delete(2), 0, 0, &[(1, 0, 1), (-2, 0, 4)]),
    (Move::Decide(3), 0, 1, &[(1, 0, 1), (-2, 0, 4), (3, 1, 0)]),
];

/// A clause that is false while others of the same watched literal wait for their look.
const FALSIFIED: &[&[i32]] = &[&[-1, 2], &[-1, -2], &[-1, 3]];

static CONFLICTS: [Row; 5] = [
    (Move::Decide(1), 0, 1, &[(1, 1, 0)]),
    (Move::Propagate, 2, 1, &[(1, 1, 0), (2, 1, 1)]),
    (Move::Propagate, 2, 1, &[(1, 1, 0), (2, 1, 1)]),
    (Move::Delete(2), 0, 1, &[(1, 1, 0), (2, 1, 1)]),
    (Move::Propagate, 0, 1, &[(1, 1, 0), (2, 1, 1), (3, 1, 3)]),
];

/// Whether a store has these literals.
fn has_entries(db: &ClauseDb, rows: &[(i32, u32, u64)]) -> bool {
    for (entry, (number, level, id)) in db.trail().iter().zip(rows) {
        if entry.lit != literal(*number)
            || entry.level != *level
            || id_of(db, entry.reason) != *id
        {
            return false;
        }
    }
    db.trail().len() == rows.len()
}

/// Makes a move.
fn move_row<R: Abort>(rt: &R, alloc: Global, bench: &mut Bench, row: &Row) -> Result<(), Fail> {
    let (step, conflict, level, entries) = row;
    let found = bench.play(alloc, *step)?;
    assert_eq!(rt; found, Some(*conflict), "{step:?}");
    assert_eq!(rt; bench.db.level(), *level, "{step:?}");
    assert!(rt; has_entries(&bench.db, entries), "{step:?}");
    Ok(())
}

/// Makes moves one after another.
fn play_all<R: Abort>(rt: &R, alloc: Global, bench: &mut Bench, rows: &[Row]) -> Result<(), Fail> {
    for row in rows {
        move_row(rt, alloc, bench, row)?;
    }
    Ok(())
}

/// Makes moves over a CNF of six variables.
fn moves_row<R: Abort>(
    rt: &R,
    alloc: Global,
    clauses: &[&[i32]],
    rows: &[Row],
) -> Result<(), Fail> {
    let cnf = cnf(alloc, 6, clauses)?;
    let mut bench = Bench::of(alloc, ClauseDb::with(alloc, &cnf)?)?;
    play_all(rt, alloc, &mut bench, rows)
}

#[test]
fn moves_by_hand(rt: HostRuntime) -> Result<(), Fail> {
    moves_row(&rt, rt.alloc(), CLAUSES, &MOVES)?;
    moves_row(&rt, rt.alloc(), STARTING, &STARTS)?;
    moves_row(&rt, rt.alloc(), FALSIFIED, &CONFLICTS)
}

/// How many clauses come.
const MANY: u32 = 1_000_000;

/// The ids behind those that come, and behind half as many more.
const FIRST_END: u64 = 1_000_001;

const SECOND_END: u64 = 1_500_001;

/// Adds clauses of three literals under ids below a bound.
fn add_many(db: &mut ClauseDb, ids: std::ops::Range<u64>) -> Result<bool, AllocError> {
    for id in ids {
        let var = (id % 1_000) as i32 + 1;
        let lits = [literal(var), literal(-1 - var), literal(var + 2)];
        if add(db, &lits, id)?.is_none() {
            return Ok(false);
        }
    }
    Ok(true)
}

/// Clauses come, and none is false then.
fn come(db: &mut ClauseDb, ids: std::ops::Range<u64>) -> Result<(), Fail> {
    if !add_many(db, ids)? {
        return Err(Fail::new("a clause may not come"));
    }
    if db.propagate().is_some() {
        return Err(Fail::new("a clause is false"));
    }
    Ok(())
}

/// The clauses of even ids go.
fn delete_half(db: &mut ClauseDb) {
    for c in 0..db.references() {
        if id_of(db, Some(c)) % 2 == 0 {
            let _went = delete(db, c);
        }
    }
}

/// Many clauses come, half of them go, and half as many come. The answer is the references before and after, and the
/// room in between.
fn references_and_room(db: &mut ClauseDb) -> Result<(u32, u32, u32), Fail> {
    come(db, 1..FIRST_END)?;
    let before = db.references();
    delete_half(db);
    let room = db.spare_clauses();
    come(db, FIRST_END..SECOND_END)?;
    Ok((before, db.references(), room))
}

// Where half of the clauses go, as many come under the same references.
#[test]
fn deleted_clauses_give_room(rt: HostRuntime) -> Result<(), Fail> {
    let cnf = cnf(rt.alloc(), 1_002, &[])?;
    let mut db = ClauseDb::with(rt.alloc(), &cnf)?;
    let (before, after, room) = references_and_room(&mut db)?;
    assert!(rt; room >= MANY / 2);
    assert_eq!(rt; after, before);
    Ok(())
}
