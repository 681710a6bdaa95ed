//! The way back from a false clause along the reasons.

ghost use Rattle.std.specs.Prelude.{◌<◌, ◌≤◌, length, IfSome};

use crate::marks::Met;
use clause_rings::{ClauseDb, ClauseRef};
use order_ints::Lit;
use std::alloc::{AllocError, Global};

/// The id of a clause, 0 where it isn't there.
fn id_of(db: &ClauseDb, c: ClauseRef) -> u64 {
    if db.is_live(c) { db.id(c) } else { 0 }
}

/// Marks the variables of those literals of a clause that are false.
fn meet(db: &ClauseDb, met: &mut Met, c: ClauseRef) {
    if db.is_live(c) {
        for place in 0..db.len(c) {
            let l = db.lit_at(c, place);
            if l.var <= db.vars() && db.truth(l) == Some(false) {
                met.set(l.var);
            }
        }
    }
}

/// The first place of the trail at which one of these literals became true, and the clause for which it did; none where
/// none is true, or that one was decided.
fn first_held(db: &ClauseDb, lits: &[Lit]) -> Option<(ClauseRef, u32)>
    ensures { IfSome result (λ held. held.1 < length db.now.trail.entries) }
{
    let height = db.height();
    let mut first = height;
    for l in lits {
        if l.var <= db.vars() && db.truth(*l) == Some(true) {
            first = first.min(db.place_of(l.var).unwrap_or(height));
        }
    }
    if first == height {
        return None;
    }
    let reason = db.entry_at(first).reason?;
    Some((reason, first))
}

/// The ids of the reasons back from a clause that is false before a place of the trail, the last one first. A denied
/// literal needs none. It goes down the trail to the oldest variable that it met.
fn back_from(
    alloc: Global,
    db: &ClauseDb,
    met: &mut Met,
    start: (ClauseRef, u32),
) -> Result<Vec<u64>, AllocError>
    requires { start.1 ≤ length db.now.trail.entries }
{
    let mut hints = Vec::new(alloc);
    hints.push(id_of(db, start.0))?;
    meet(db, met, start.0);
    for place in (0..start.1).rev() {
        if met.is_empty() {
            break;
        }
        let entry = db.entry_at(place);
        if met.take(entry.lit.var) && met.denied(entry.lit.var).is_none() {
            if let Some(c) = entry.reason {
                hints.push(id_of(db, c))?;
                meet(db, met, c);
            }
        }
    }
    Ok(hints)
}

/// The ids of the clauses that show a clause whose literals, which these are, are denied: reasons in the order in which
/// they became so, and last the clause that is false. Where one of the literals became true for a clause, that is the
/// last one: with all literals denied it is false.
pub(crate) fn hints_behind(
    alloc: Global,
    db: &ClauseDb,
    met: &mut Met,
    lits: &[Lit],
    conflict: Option<ClauseRef>,
) -> Result<Vec<u64>, AllocError> {
    let start = match first_held(db, lits) {
        Some(held) => held,
        None => match conflict {
            Some(c) => (c, db.height()),
            None => return Ok(Vec::new(alloc)),
        },
    };
    let mut hints = back_from(alloc, db, met, start)?;
    hints.reverse();
    Ok(hints)
}
