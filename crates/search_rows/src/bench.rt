//! A clause store, and the plain program beside it that looks at every clause.

use crate::plain::{Known, clause, follow, has_clauses, has_trail, is_complete, open};
use crate::stores::{add, back, delete, id_of, propagate};
use crate::words::{literal, literals};
use clause_arena::Literals;
use clause_rings::ClauseDb;
use literal_trail::Entry;
use order_ints::Lit;
use std::alloc::{AllocError, Global};
use std::test::Fail;

/// What is done to a clause store.
#[derive(Clone, Copy, Debug)]
pub(super) enum Move<'a> {
    /// A clause comes under an id.
    Add(u64, &'a [i32]),
    /// The clause of an id goes.
    Delete(u64),
    /// Literals become true until no clause is false or unit, or one is false.
    Propagate,
    /// So they do, and then a literal begins a level.
    Decide(i32),
    /// The levels above one go.
    Back(u32),
}

/// A clause store, and what the plain program has.
#[derive(Drop)]
pub(super) struct Bench {
    pub db: ClauseDb,
    known: Vec<Known>,
    given: Vec<Entry>,
    level: u32,
}

/// The literals of a clause, as a list that is owned.
fn owned(alloc: Global, lent: Literals<'_>) -> Result<Vec<Lit>, AllocError> {
    let mut lits = Vec::new(alloc);
    for l in lent {
        lits.push(l)?;
    }
    Ok(lits)
}

/// The clauses of a store.
fn known_of(alloc: Global, db: &ClauseDb) -> Result<Vec<Known>, AllocError> {
    let mut known = Vec::new(alloc);
    for at in 0..db.references() {
        if db.is_live(at) {
            let lits = owned(alloc, db.lits(at))?;
            let id = db.id(at);
            known.push(Known { at, id, lits })?;
        }
    }
    Ok(known)
}

impl Bench {
    /// Beside a store in which nothing was done yet.
    pub(super) fn of(alloc: Global, db: ClauseDb) -> Result<Bench, AllocError> {
        let known = known_of(alloc, &db)?;
        Ok(Bench {
            db,
            known,
            given: Vec::new(alloc),
            level: 0,
        })
    }

    /// A clause comes.
    fn add(&mut self, alloc: Global, id: u64, numbers: &[i32]) -> Result<Option<u64>, AllocError> {
        let lits = literals(alloc, numbers)?;
        let Some(at) = add(&mut self.db, &lits, id)? else {
            return Ok(None);
        };
        self.known.push(Known { at, id, lits })?;
        Ok(Some(0))
    }

    /// A clause goes.
    fn delete(&mut self, id: u64) -> Option<u64> {
        let at = self.known.iter().find(|clause| clause.id == id)?.at;
        if !delete(&mut self.db, at) {
            return None;
        }
        self.known.retain(|clause| clause.id != id);
        Some(0)
    }

    /// The levels above one go.
    fn back(&mut self, level: u32) -> Option<u64> {
        if !back(&mut self.db, level) {
            return None;
        }
        self.given.retain(|entry| entry.level <= level);
        self.level = level;
        Some(0)
    }

    /// Literals become true, and perhaps one that is decided. The answer is the id of a clause that is false.
    fn run(&mut self, next: Option<Lit>) -> Result<Option<u64>, Fail> {
        let (found, begun) = propagate(&mut self.db, next);
        if !follow(&self.db, &self.known, &mut self.given, begun)? {
            return Err(Fail::new("a literal is true that was not forced"));
        }
        let is_right = match clause(&self.known, found) {
            Some(conflict) => open(&self.given, u32::MAX, &conflict.lits) == Some(0),
            None => found.is_none() && is_complete(&self.given, self.level, &self.known),
        };
        if !is_right {
            return Err(Fail::new("a clause is false or unit"));
        }
        if begun.is_some() {
            self.level = self.level.saturating_add(1);
        }
        if found.is_none() && begun != next {
            return Ok(None);
        }
        Ok(Some(id_of(&self.db, found)))
    }

    /// Makes a move where it may be made, in the store and beside it, and compares both. The answer is the id of a
    /// clause that is false, 0 for none; none where the move may not be made.
    pub(super) fn play(&mut self, alloc: Global, step: Move<'_>) -> Result<Option<u64>, Fail> {
        let answer = match step {
            Move::Add(id, numbers) => self.add(alloc, id, numbers)?,
            Move::Delete(id) => self.delete(id),
            Move::Propagate => self.run(None)?,
            Move::Decide(number) => self.run(Some(literal(number)))?,
            Move::Back(level) => self.back(level),
        };
        if !has_trail(&self.db, &self.given, self.level) || !has_clauses(&self.db, &self.known) {
            return Err(Fail::new("the store has not what was done"));
        }
        for level in 0..self.level {
            if !is_complete(&self.given, level, &self.known) {
                return Err(Fail::new("a clause was false or unit below"));
            }
        }
        Ok(answer)
    }
}
