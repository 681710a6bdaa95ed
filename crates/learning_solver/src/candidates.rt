//! The learned clauses that may be deleted, and when some are. A clause whose literals are of few levels is likely to
//! be of use again (Audemard and Simon, 2009), and so is one that a conflict used lately; half of the others go, those
//! of the most levels first, of these the longest, and of these the oldest. Nothing is promised of the table: a clause
//! is looked at again when it goes.

use crate::deletable::is_deletable;
use crate::profile::Profile;
use crate::tunables::{DELETION_IN_ORDER, FIRST_DELETION, GOOD_GLUE, LONGER_BY, SHORT};
use clause_rings::ClauseDb;
use std::alloc::{AllocError, Global};

/// A learned clause that may be deleted.
#[derive(Clone, Copy)]
pub struct Candidate {
    /// Its reference.
    pub clause: u32,
    /// Its id.
    pub id: u64,
    /// The number of levels of its literals when it was learned.
    pub glue: u32,
    /// The number of its literals, or the greatest number of 32 bits.
    pub size: u32,
    /// Whether it may go this time.
    pub goes: bool,
}

/// Which learned clauses conflicts used lately.
#[derive(Drop)]
pub struct Uses {
    /// The greatest id of the CNF.
    pub base: u64,
    /// For each id above those of the CNF, the deletion before which a conflict used the clause last, counted from 1.
    pub last: Vec<u32>,
    /// How many deletions there were.
    pub deletions: u32,
}

impl Uses {
    /// The number of an id among those above the CNF's, from 1; 0 for those of the CNF.
    fn number(&self, id: u64) -> usize {
        id.saturating_sub(self.base) as usize
    }

    /// Makes the table reach to an id.
    fn reach(&mut self, id: u64) -> Result<(), AllocError> {
        for _ in self.last.len()..self.number(id) {
            self.last.push(0)?;
        }
        Ok(())
    }

    /// A conflict used the clauses of these ids.
    pub fn use_all(&mut self, ids: &[u64]) {
        let next = self.deletions.saturating_add(1);
        for id in ids {
            let number = self.number(*id);
            if number > 0 && number <= self.last.len() {
                self.last[number - 1] = next;
            }
        }
    }

    /// Whether a conflict used a clause since the last deletion.
    fn is_used(&self, id: u64) -> bool {
        let number = self.number(id);
        number > 0 && number <= self.last.len() && self.last[number - 1] > self.deletions
    }
}

/// The learned clauses that may be deleted. Some 24 bytes for each, and 4 for each one that was ever learned.
#[derive(Drop)]
pub struct Candidates {
    /// The clauses.
    pub list: Vec<Candidate>,
    /// Which were used lately.
    pub uses: Uses,
    /// How many conflicts have passed since the last deletion.
    pub conflicts: u64,
}

impl Candidates {
    /// None, over a CNF of so many clauses.
    pub fn new(alloc: Global, base: u64) -> Candidates {
        Candidates {
            list: Vec::new(alloc),
            uses: Uses {
                base,
                last: Vec::new(alloc),
                deletions: 0,
            },
            conflicts: 0,
        }
    }

    /// Counts a conflict, and keeps in mind the clause that was learned from it, unless that is never deleted. Where
    /// memory is wanting it stays for good.
    pub fn note(&mut self, clause: u32, id: u64, size: usize, glue: u32) {
        self.conflicts = self.conflicts.saturating_add(1);
        if size <= SHORT || glue <= GOOD_GLUE || self.uses.reach(id).is_err() {
            return;
        }
        let _noted = self.list.push(Candidate {
            clause,
            id,
            glue,
            size: u32::try_from(size).unwrap_or(u32::MAX),
            goes: false,
        });
    }

    /// Whether it is time for a deletion.
    pub fn are_due(&self, profile: Profile) -> bool {
        match profile {
            Profile::Activity => self.conflicts
                >= FIRST_DELETION + LONGER_BY * self.uses.deletions as u64,
            Profile::InOrder => self.conflicts >= DELETION_IN_ORDER,
        }
    }

    /// Puts those that may go behind the others, those of the most levels last, of these the longest, and of these the
    /// oldest. It tells how many are to go: half of them.
    pub fn line_up(&mut self, db: &ClauseDb) -> usize {
        let mut count: usize = 0;
        for c in self.list.iter_mut() {
            c.goes = !self.uses.is_used(c.id) && is_deletable(db, c.clause, self.uses.base);
            if c.goes {
                count = count.saturating_add(1);
            }
        }
        self.list
            .sort_unstable_by_key(|c| (c.goes, c.glue, c.size, u64::MAX - c.id));
        count / 2
    }

    /// Takes out the last one.
    pub fn pop(&mut self) -> Option<u32> {
        Some(self.list.pop()?.clause)
    }

    /// Begins the next stretch of conflicts.
    pub fn begin_anew(&mut self) {
        self.conflicts = 0;
        self.uses.deletions = self.uses.deletions.saturating_add(1);
    }
}
