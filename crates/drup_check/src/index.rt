//! Where clauses are found by their literals, and how often each was noted. Of what is found nothing is promised but
//! that a copy is one: a clause that isn't found stays where it is.

ghost use Rattle.std.specs.Prelude.{◌≡◌, IfOk, IsTrue};
ghost use Rattle.clause_arena.specs.Clauses.{IsLive};
ghost use Rattle.drup_check.specs.Stored.{IsStored};

use crate::copies::is_copy;
use clause_rings::{ClauseDb, ClauseRef};
use indexmap::IndexMap;
use order_ints::Lit;
use std::alloc::{AllocError, Global};

/// Where a clause stands, and how often it was noted beyond the first time.
#[derive(Clone, Copy)]
struct Place {
    reference: ClauseRef,
    copies: u64,
}

/// The places of clauses by sums over their literals, which are the same in any order. Of two clauses with one sum the
/// one that came last is found.
#[derive(Drop)]
pub struct ClauseIndex {
    places: IndexMap<u64, Place>,
}

/// A number for a literal, whose bits look chosen at random.
fn mixed(l: Lit) -> u64 {
    let code = u64::from(l.var)
        .wrapping_mul(2)
        .wrapping_add(u64::from(l.positive));
    let spread = code.wrapping_add(1).wrapping_mul(0x9E37_79B9_7F4A_7C15);
    (spread ^ (spread >> 29)).wrapping_mul(0xBF58_476D_1CE4_E5B9)
}

/// The sum over literals.
fn sum_of(lits: &[Lit]) -> u64 {
    let mut sum: u64 = 0;
    for l in lits {
        sum = sum.wrapping_add(mixed(*l));
    }
    sum
}

/// The sum over the literals of a clause.
fn sum_at(db: &ClauseDb, c: ClauseRef) -> u64
    requires { IsLive db.now.clauses c }
{
    let mut sum: u64 = 0;
    for place in 0..db.len(c) {
        sum = sum.wrapping_add(mixed(db.lit_at(c, place)));
    }
    sum
}

impl ClauseIndex {
    /// No clause.
    pub fn new(alloc: Global) -> ClauseIndex {
        ClauseIndex {
            places: IndexMap::new(alloc),
        }
    }

    /// The clauses of a store.
    pub fn of(alloc: Global, db: &ClauseDb) -> Result<ClauseIndex, AllocError> {
        let mut index = ClauseIndex::new(alloc);
        for c in 0..db.references() {
            if db.is_live(c) {
                index.put(sum_at(db, c), c, 0)?;
            }
        }
        Ok(index)
    }

    /// Notes a place under a sum.
    fn put(&mut self, sum: u64, reference: ClauseRef, copies: u64) -> Result<(), AllocError> {
        self.places.insert(sum, Place { reference, copies })?;
        Ok(())
    }

    /// The place under a sum.
    fn place(&self, sum: u64) -> Option<Place> {
        self.places.get(&sum).copied()
    }

    /// Notes where a clause stands.
    pub fn note(&mut self, lits: &[Lit], c: ClauseRef) -> Result<(), AllocError> {
        self.put(sum_of(lits), c, 0)
    }

    /// Whether a clause of the store that is found has these literals, in any order. It is noted once more then. It
    /// takes the time of one sort of the literals where one is found.
    pub fn note_copy(
        &mut self,
        alloc: Global,
        db: &ClauseDb,
        lits: &[Lit],
    ) -> Result<bool, AllocError>
        ensures { IfOk result (λ known. IsTrue known → IsStored db.now.clauses lits.now) }
    {
        let sum = sum_of(lits);
        let Some(place) = self.place(sum) else {
            return Ok(false);
        };
        let known = is_copy(alloc, db, place.reference, lits)?;
        if known {
            self.put(sum, place.reference, place.copies.saturating_add(1))?;
        }
        Ok(known)
    }

    /// Forgets that a clause was noted once, and answers where it stands if that was the last time.
    pub fn take(&mut self, lits: &[Lit]) -> Result<Option<ClauseRef>, AllocError> {
        let sum = sum_of(lits);
        match self.place(sum) {
            None => Ok(None),
            Some(place) if place.copies == 0 => {
                self.places.swap_remove(&sum);
                Ok(Some(place.reference))
            }
            Some(place) => {
                self.put(sum, place.reference, place.copies - 1)?;
                Ok(None)
            }
        }
    }
}
