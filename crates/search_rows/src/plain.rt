//! A plain program that looks at every clause.

use clause_rings::{ClauseDb, ClauseRef};
use literal_trail::Entry;
use order_ints::Lit;
use std::alloc::AllocError;

/// A clause under its reference and its id.
#[derive(Drop)]
pub(super) struct Known {
    pub at: ClauseRef,
    pub id: u64,
    pub lits: Vec<Lit>,
}

/// The entry of a variable among those up to the end of a level.
pub(super) fn entry_of(given: &[Entry], level: u32, var: u32) -> Option<Entry> {
    given
        .iter()
        .copied()
        .find(|e| e.lit.var == var && e.level <= level)
}

/// How many literals are free at the end of a level, none where one is true.
pub(super) fn open(given: &[Entry], level: u32, lits: &[Lit]) -> Option<usize> {
    let mut free = 0usize;
    for l in lits {
        match entry_of(given, level, l.var) {
            Some(entry) if entry.lit.positive == l.positive => return None,
            Some(_) => {}
            None => free = free.saturating_add(1),
        }
    }
    Some(free)
}

/// Whether no clause is false or unit at the end of a level.
pub(super) fn is_complete(given: &[Entry], level: u32, known: &[Known]) -> bool {
    for clause in known {
        if matches!(open(given, level, &clause.lits), Some(0 | 1)) {
            return false;
        }
    }
    true
}

/// The clause of a reference.
pub(super) fn clause(known: &[Known], at: Option<ClauseRef>) -> Option<&Known> {
    known.iter().find(|clause| Some(clause.at) == at)
}

/// Takes over what was made true: literals by clauses that were unit for them, and then one that was decided. The
/// answer is whether it was so.
pub(super) fn follow(
    db: &ClauseDb,
    known: &[Known],
    given: &mut Vec<Entry>,
    begun: Option<Lit>,
) -> Result<bool, AllocError> {
    for entry in db.trail().iter().skip(given.len()) {
        let is_right = match clause(known, entry.reason) {
            Some(reason) => {
                open(given, u32::MAX, &reason.lits) == Some(1) && reason.lits.contains(&entry.lit)
            }
            None => begun == Some(entry.lit) && entry.reason.is_none(),
        };
        if !is_right || entry_of(given, u32::MAX, entry.lit.var).is_some() {
            return Ok(false);
        }
        given.push(*entry)?;
    }
    Ok(true)
}

/// Whether a store has these literals, their levels and reasons, and as many at the end of each level.
pub(super) fn has_trail(db: &ClauseDb, given: &[Entry], level: u32) -> bool {
    for var in 0..db.vars() {
        let found = entry_of(given, level, var);
        if db.value(var) != found.map(|e| e.lit.positive)
            || db.level_of(var) != found.map(|e| e.level)
            || db.reason(var) != found.and_then(|e| e.reason)
        {
            return false;
        }
    }
    for k in 0..db.level() {
        let count = given.iter().filter(|e| e.level <= k).count();
        if db.end_of_level(k) as usize != count {
            return false;
        }
    }
    db.level() == level && db.trail().len() == given.len()
}

/// Whether a store has these clauses alone.
pub(super) fn has_clauses(db: &ClauseDb, known: &[Known]) -> bool {
    for c in known {
        if !db.is_live(c.at) || db.id(c.at) != c.id || db.len(c.at) as usize != c.lits.len() {
            return false;
        }
        for l in db.lits(c.at) {
            if !c.lits.contains(&l) {
                return false;
            }
        }
    }
    (0..db.references()).filter(|c| db.is_live(*c)).count() == known.len()
}
