//! Conflicts worked out by hand: the clause that is learned, its hints in order, the level to jump back to, the number
//! of levels, and the variables that the walk met. One walker takes all rows, each twice, so that nothing may be left
//! behind by the one before.

ghost use Rattle.std.specs.Prelude.{◌≡◌};

use crate::stores::propagate;
use crate::words::{cnf, literal};
use clause_rings::ClauseDb;
use conflict_analysis::Walker;
use learning_solver::analyse;
use std::alloc::{AllocError, Global};
use std::test::Fail;

/// Clauses, of which the last one becomes false behind decisions, and what is learned then.
struct Row {
    clauses: &'static [&'static [i32]],
    decisions: &'static [i32],
    /// The literal of the current level first.
    lits: &'static [i32],
    hints: &'static [u64],
    jump: u32,
    glue: u32,
    /// The variables in the order of their numbers.
    seen: &'static [u32],
}

static ROWS: [Row; 14] = [
    // Two levels. The literal by which the conflict follows is kept, and not the decision.
    Row {
        clauses: &[&[-2, 3], &[-3, 4], &[-3, 5], &[-1, -4, -5]],
        decisions: &[1, 2],
        lits: &[-3, -1],
        hints: &[2, 3, 4],
        jump: 1,
        glue: 2,
        seen: &[1, 3, 4, 5],
    },
    // Two literals of one level, neither implied: its decision stands outside.
    Row {
        clauses: &[&[-1, 3], &[-1, 4], &[-2, -3, 5], &[-2, -4, 6], &[-5, -6]],
        decisions: &[1, 2],
        lits: &[-2, -3, -4],
        hints: &[3, 4, 5],
        jump: 1,
        glue: 2,
        seen: &[2, 3, 4, 5, 6],
    },
    // Three levels.
    Row {
        clauses: &[&[-1, -3, 4], &[-2, -3, 5], &[-4, -5]],
        decisions: &[1, 2, 3],
        lits: &[-3, -2, -1],
        hints: &[1, 2, 3],
        jump: 2,
        glue: 3,
        seen: &[1, 2, 3, 4, 5],
    },
    Row {
        clauses: &[&[1, 3, -4], &[-2, 3, 5], &[4, -5]],
        decisions: &[-1, 2, -3],
        lits: &[3, -2, 1],
        hints: &[1, 2, 3],
        jump: 2,
        glue: 3,
        seen: &[1, 2, 3, 4, 5],
    },
    // Levels without a literal: the last one before the current, the first, and both.
    Row {
        clauses: &[&[-1, -3, 4], &[-2, -3, 5], &[-4, -5]],
        decisions: &[1, 2, 9, 3],
        lits: &[-3, -2, -1],
        hints: &[1, 2, 3],
        jump: 2,
        glue: 3,
        seen: &[1, 2, 3, 4, 5],
    },
    Row {
        clauses: &[&[-1, -3, 4], &[-2, -3, 5], &[-4, -5]],
        decisions: &[9, 1, -8, 2, 3],
        lits: &[-3, -2, -1],
        hints: &[1, 2, 3],
        jump: 4,
        glue: 3,
        seen: &[1, 2, 3, 4, 5],
    },
    // A literal goes that one other implies, two others of two levels, and one other by a chain.
    Row {
        clauses: &[&[-1, 3], &[-1, -2, 4], &[-2, 5], &[-3, -4, -5]],
        decisions: &[1, 2],
        lits: &[-2, -1],
        hints: &[1, 2, 3, 4],
        jump: 1,
        glue: 2,
        seen: &[1, 2, 3, 4, 5],
    },
    Row {
        clauses: &[&[-1, -2, 4], &[-1, -3, 5], &[-2, -3, 6], &[-4, -5, -6]],
        decisions: &[1, 2, 3],
        lits: &[-3, -2, -1],
        hints: &[1, 2, 3, 4],
        jump: 2,
        glue: 3,
        seen: &[1, 2, 3, 4, 5, 6],
    },
    Row {
        clauses: &[
            &[-1, 3],
            &[-3, 4],
            &[-4, 5],
            &[-1, -2, 6],
            &[-2, 7],
            &[-5, -6, -7],
        ],
        decisions: &[1, 2],
        lits: &[-2, -1],
        hints: &[1, 2, 3, 4, 5, 6],
        jump: 1,
        glue: 2,
        seen: &[1, 2, 5, 6, 7],
    },
    // It stays where its reason has a literal of a level outside.
    Row {
        clauses: &[&[-1, -2, 4], &[-2, -3, 5], &[-3, 6], &[-4, -5, -6]],
        decisions: &[1, 2, 3],
        lits: &[-3, -4, -2],
        hints: &[2, 3, 4],
        jump: 2,
        glue: 2,
        seen: &[2, 3, 4, 5, 6],
    },
    // Level 0 stands in the hints, each reason behind those that it needs, and neither in the clause nor among its
    // levels.
    Row {
        clauses: &[&[9], &[8, -9], &[-1, -2, 3], &[-2, 4], &[-3, -4, -8]],
        decisions: &[1, 2],
        lits: &[-2, -1],
        hints: &[1, 2, 3, 4, 5],
        jump: 1,
        glue: 2,
        seen: &[1, 2, 3, 4, 8],
    },
    Row {
        clauses: &[&[9], &[-1, 3, -9], &[-1, 4], &[-3, -4]],
        decisions: &[1],
        lits: &[-1],
        hints: &[1, 2, 3, 4],
        jump: 0,
        glue: 1,
        seen: &[1, 3, 4, 9],
    },
    // One literal alone, of the decision and of what it implies: back to level 0.
    Row {
        clauses: &[&[-3, 4], &[-3, 5], &[-4, -5]],
        decisions: &[1, 2, 3],
        lits: &[-3],
        hints: &[1, 2, 3],
        jump: 0,
        glue: 1,
        seen: &[3, 4, 5],
    },
    Row {
        clauses: &[&[-3, 4], &[-4, 5], &[-4, 6], &[-5, -6]],
        decisions: &[1, 3],
        lits: &[-4],
        hints: &[2, 3, 4],
        jump: 0,
        glue: 1,
        seen: &[4, 5, 6],
    },
];

/// Decides literals, with propagation before each.
fn decide(db: &mut ClauseDb, decisions: &[i32]) -> Result<(), Fail> {
    for number in decisions {
        if propagate(db, Some(literal(*number))).1.is_none() {
            return Err(Fail::new("no decision"));
        }
    }
    Ok(())
}

/// Propagates, and learns a clause at the one that is false. The answer is whether one of nine variables is, above
/// level 0.
fn analysed(walker: &mut Walker, db: &mut ClauseDb) -> Result<bool, AllocError>
    requires { walker.old.vars ≡ 9 }
    ensures { walker.new.vars ≡ 9 }
{
    let Some(conflict) = db.propagate() else {
        return Ok(false);
    };
    if db.level() < 1 || db.vars() != 9 {
        return Ok(false);
    }
    analyse(walker, db, conflict)?;
    Ok(true)
}

/// Whether a walker shows these literals, the first one in its place and the others in any order.
fn has_lits(walker: &Walker, row: &Row) -> bool {
    let lits = walker.lits();
    lits.len() == row.lits.len()
        && lits.first().copied() == row.lits.first().map(|number| literal(*number))
        && row
            .lits
            .iter()
            .all(|number| lits.contains(&literal(*number)))
}

/// Whether it shows the rest of a row.
fn has_rest(walker: &Walker, row: &Row) -> bool {
    let seen = walker.seen();
    walker.hints() == row.hints
        && walker.jump() == row.jump
        && walker.glue() == row.glue
        && seen.len() == row.seen.len()
        && row.seen.iter().all(|var| seen.contains(var))
}

/// Whether the second literal of a clause, where there is one, is of a level.
fn has_second(walker: &Walker, db: &ClauseDb, level: u32) -> bool {
    match walker.lits().get(1) {
        Some(l) => l.var <= db.vars() && db.level_of(l.var) == Some(level),
        None => true,
    }
}

/// Learns at the conflict. The answer is whether that is what a row has.
fn is_learned(walker: &mut Walker, db: &mut ClauseDb, row: &Row) -> Result<bool, AllocError>
    requires { walker.old.vars ≡ 9 }
    ensures { walker.new.vars ≡ 9 }
{
    if !analysed(walker, db)? {
        return Ok(false);
    }
    Ok(has_lits(walker, row) && has_rest(walker, row) && has_second(walker, db, row.jump))
}

/// Decides, and learns at the conflict twice.
fn analysed_row(alloc: Global, walker: &mut Walker, row: &Row) -> Result<bool, Fail>
    requires { walker.old.vars ≡ 9 }
    ensures { walker.new.vars ≡ 9 }
{
    let cnf = cnf(alloc, 9, row.clauses)?;
    let mut db = ClauseDb::with(alloc, &cnf)?;
    decide(&mut db, row.decisions)?;
    let once = is_learned(walker, &mut db, row)?;
    let twice = is_learned(walker, &mut db, row)?;
    Ok(once && twice)
}

/// How many rows are right before the first one that isn't.
fn right_rows(alloc: Global, walker: &mut Walker, rows: &[Row]) -> Result<usize, Fail>
    requires { walker.old.vars ≡ 9 }
{
    for k in 0..rows.len() {
        if !analysed_row(alloc, walker, &rows[k])? {
            return Ok(k);
        }
    }
    Ok(rows.len())
}

#[test]
fn conflicts_are_analysed(rt: HostRuntime) -> Result<(), Fail> {
    let mut walker = Walker::with(rt.alloc(), 9)?;
    assert_eq!(rt; right_rows(rt.alloc(), &mut walker, &ROWS)?, ROWS.len());
    Ok(())
}
