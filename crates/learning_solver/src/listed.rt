//! Literals that are decided first, as a list gives them. A search that is to go through all solutions decides in one
//! order throughout, so that each new clause, which rules the last solution out, is met where that one branched off.
//! Or they are targets, of which each says less than the one before: the first one is given up where it is refuted, or
//! where it was decided in many conflicts. Or they are wished for together, until there were many conflicts.

ghost use Rattle.std.specs.Prelude.{IfSome};
ghost use Rattle.learning_solver.specs.Order.{IsFreeIn};

use crate::tunables::{PATIENCE, PATIENCE_PARTS, WISH_PATIENCE};
use clause_rings::ClauseDb;
use order_ints::Lit;
use std::alloc::{AllocError, Global};

/// The literals, and how far the search went along them.
#[derive(Drop)]
pub struct Listed {
    lits: Vec<Lit>,
    /// The variables of those before this place have values, as far as is known.
    place: usize,
    /// Those before this place were given up.
    start: usize,
    /// In how many conflicts the literal at the start was decided.
    stood: u64,
    /// How many conflicts there were.
    conflicts: u64,
    /// Where they are wished for together, at how many conflicts all are given up.
    wished_until: Option<u64>,
}

impl Listed {
    /// None.
    pub fn new(alloc: Global) -> Listed {
        Listed {
            lits: Vec::new(alloc),
            place: 0,
            start: 0,
            stood: 0,
            conflicts: 0,
            wished_until: None,
        }
    }

    /// A copy of a list.
    pub fn with(alloc: Global, first: &[Lit]) -> Result<Listed, AllocError> {
        let lits = Vec::from_slice(alloc, first)?;
        Ok(Listed {
            lits,
            place: 0,
            start: 0,
            stood: 0,
            conflicts: 0,
            wished_until: None,
        })
    }

    /// Takes other literals in place of these.
    pub fn replace(&mut self, first: &[Lit]) -> Result<(), AllocError> {
        self.lits.clear();
        self.start = 0;
        self.place = 0;
        self.stood = 0;
        self.wished_until = None;
        self.lits.extend_from_slice(first)
    }

    /// Takes other literals in place of these, which are wished for together.
    pub fn wish(&mut self, first: &[Lit]) -> Result<(), AllocError> {
        self.replace(first)?;
        self.wished_until = Some(self.conflicts.saturating_add(WISH_PATIENCE));
        Ok(())
    }

    /// How many literals were given up.
    pub fn given_up(&self) -> usize {
        self.start
    }

    /// The first literal whose variable has no value. Those whose variable is none of the store's are passed over.
    pub fn next(&mut self, db: &ClauseDb) -> Option<Lit>
        ensures { IfSome result (λ l. IsFreeIn db.now.trail l.var) }
    {
        let lits = self.lits.as_slice();
        for place in self.place..lits.len() {
            let l = lits[place];
            if l.var > 0 && l.var <= db.vars() && db.value(l.var).is_none() {
                self.place = place;
                return Some(l);
            }
        }
        self.place = lits.len();
        None
    }

    /// The next search begins with the first literal: variables became free.
    pub fn rewind(&mut self) {
        self.place = self.start;
    }

    /// In how many conflicts the first literal may be decided: the longer the search is, the more.
    fn patience(&self) -> u64 {
        PATIENCE.saturating_add(self.conflicts / PATIENCE_PARTS)
    }

    /// Counts a conflict, and gives up what is due by then.
    pub fn note_conflict(&mut self, db: &ClauseDb) {
        self.conflicts = self.conflicts.saturating_add(1);
        match self.wished_until {
            Some(end) if self.conflicts < end => {}
            Some(_) => self.start = self.lits.len(),
            None => self.note_target(db),
        }
    }

    /// The first literal is given up where it was decided in many conflicts, or where it is false whatever is decided
    /// behind the assumption.
    fn note_target(&mut self, db: &ClauseDb) {
        let Some(l) = self.lits.get(self.start) else {
            return;
        };
        if l.var == 0 || l.var > db.vars() {
            return;
        }
        if db.value(l.var) == Some(l.positive) {
            if db.reason(l.var).is_none() {
                self.stood = self.stood.saturating_add(1);
            }
            if self.stood < self.patience() {
                return;
            }
        } else if !matches!(db.level_of(l.var), Some(0 | 1)) {
            return;
        }
        self.start = self.start.saturating_add(1);
        self.stood = 0;
    }
}
