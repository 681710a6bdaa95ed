//! What may be done to a clause store: each condition of a call is tested, and the call is left out where one doesn't
//! hold.

ghost use Rattle.std.specs.Prelude.{◌≡◌, ◌+◌, ◌≤◌, ◌<◌, IsTrue, IfSome, None, length};
ghost use Rattle.order_ints.specs.Place.{LitBelow};
ghost use Rattle.literal_trail.specs.Trail.{entry_of};
ghost use Rattle.clause_arena.specs.Clauses.{lit_in};
ghost use Rattle.clause_rings.specs.Clauses.{IsLate, MayCome, IsUnused};

use crate::words::is_clause;
use clause_rings::{ClauseDb, ClauseRef};
use order_ints::Lit;
use std::alloc::AllocError;

/// Whether a literal's variable is there, and free.
pub(super) fn is_free(db: &ClauseDb, l: Lit) -> bool
    ensures lit { IsTrue result → LitBelow (db.now.trail.vars + 1) l }
    ensures free { IsTrue result → entry_of db.now.trail.entries l.var ≡ None }
{
    1 <= l.var && l.var <= db.vars() && db.entry_of(l.var).is_none()
}

/// Whether a literal is free, true or of the current level.
fn is_late(db: &ClauseDb, l: Lit) -> bool
    ensures { IsTrue result → IsLate db.now.trail l }
{
    if l.var > db.vars() {
        return false;
    }
    match db.truth(l) {
        Some(false) => match db.level_of(l.var) {
            Some(level) => level == db.level(),
            None => false,
        },
        _ => true,
    }
}

/// The first place, from one on, of a literal that is free, true or of the current level.
fn late_place(db: &ClauseDb, lits: &[Lit], from: usize) -> Option<usize>
    ensures from { IfSome result (λ k. from ≤ k) }
    ensures inside { IfSome result (λ k. k < length lits.now) }
    ensures late { IfSome result (λ k. IsLate db.now.trail (lit_in lits.now k)) }
{
    for k in from..lits.len() {
        if is_late(db, lits[k]) {
            return Some(k);
        }
    }
    None
}

/// Whether a clause of these literals may come.
fn may_come(db: &ClauseDb, lits: &[Lit]) -> bool
    ensures { IsTrue result → MayCome db.now.trail lits.now }
{
    if db.level() == 0 {
        return true;
    }
    let Some(one) = late_place(db, lits, 0) else {
        return false;
    };
    let Some(_) = late_place(db, lits, one + 1) else {
        return false;
    };
    true
}

/// Whether no literal was made true by a clause.
fn is_unused(db: &ClauseDb, c: ClauseRef) -> bool
    ensures { IsTrue result → IsUnused db.now.trail.entries c }
{
    let entries = db.trail();
    for k in 0..entries.len() {
        if entries[k].reason == Some(c) {
            return false;
        }
    }
    true
}

/// Adds a clause where it may come, and answers its reference.
pub(super) fn add(
    db: &mut ClauseDb,
    lits: &[Lit],
    id: u64,
) -> Result<Option<ClauseRef>, AllocError> {
    db.reserve(lits.len(), 1)?;
    if !is_clause(lits, db.vars()) {
        return Ok(None);
    }
    if !may_come(db, lits) {
        return Ok(None);
    }
    Ok(Some(db.add(lits, id)))
}

/// Deletes a clause that is there, and no reason. The answer is whether it was so.
pub(super) fn delete(db: &mut ClauseDb, c: ClauseRef) -> bool {
    if !db.is_live(c) {
        return false;
    }
    if !is_unused(db, c) {
        return false;
    }
    db.delete(c);
    true
}

/// Takes back the levels above one that is there. The answer is whether it is.
pub(super) fn back(db: &mut ClauseDb, level: u32) -> bool {
    if level > db.level() {
        return false;
    }
    db.backjump(level);
    true
}

/// Propagates, and begins a level with a literal, if one is given that is free and no clause is false. The answer is
/// the clause that is false, and the literal that began a level.
pub(super) fn propagate(db: &mut ClauseDb, next: Option<Lit>) -> (Option<ClauseRef>, Option<Lit>) {
    match (db.propagate(), next) {
        (None, Some(l)) if is_free(db, l) => {
            db.assign(l, None);
            (None, Some(l))
        }
        (found, _) => (found, None),
    }
}

/// The id of a clause, 0 where there is none.
pub(super) fn id_of(db: &ClauseDb, c: Option<ClauseRef>) -> u64 {
    match c {
        Some(c) if db.is_live(c) => db.id(c),
        _ => 0,
    }
}
