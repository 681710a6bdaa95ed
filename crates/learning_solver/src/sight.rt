//! A clause store as the analysis of conflicts reads it.

ghost use Rattle.std.specs.Prelude.{◌≡◌, ◌≤◌, OnOk};
ghost use Rattle.clause_arena.specs.Clauses.{IsLive, lits_of};
ghost use Rattle.literal_trail.specs.Standing.{IsFalse};
ghost use Rattle.clause_rings.specs.Clauses.{IsDb};
ghost use Rattle.conflict_analysis.specs.Analysis.{IsAnalysed};
ghost use Rattle.learning_solver.specs.Sight.{named_in};

use clause_arena::Literals;
use clause_rings::ClauseDb;
use conflict_analysis::{Reasons, Walker};
use literal_trail::Entry;
use std::alloc::AllocError;

/// A clause store that is lent.
#[derive(Clone, Copy)]
pub struct Sight<'a> {
    /// The clause store.
    pub db: &'a ClauseDb,
}

impl Reasons for Sight<'_> {
    ghost use Rattle.learning_solver.specs.Sight.{named_in};
    ghost use Rattle.clause_arena.specs.Clauses.{IsLive};

    ghost trail = { λ s. s.db.now.trail };

    ghost named = { λ s c. named_in s.db.now.clauses c };

    ghost lives = { λ s c. IsLive s.db.now.clauses c };

    fn len(&self) -> u32 {
        self.db.height()
    }

    fn entry_at(&self, place: u32) -> Entry {
        self.db.entry_at(place)
    }

    fn entry_of(&self, var: u32) -> Option<Entry> {
        self.db.entry_of(var)
    }

    fn id(&self, clause: u32) -> u64 {
        self.db.id(clause)
    }

    fn lits(&self, clause: u32) -> Literals<'_> {
        self.db.lits(clause)
    }
}

/// Learns a clause at a clause of a store that is false, above level 0, as a search does. The walker shows it. It takes
/// the time of `Walker::analyse`, and the store stays as it is.
pub fn analyse(walker: &mut Walker, db: &ClauseDb, conflict: u32) -> Result<(), AllocError>
    requires db { IsDb db.now.clauses db.now.trail }
    requires live { IsLive db.now.clauses conflict }
    requires is_false { IsFalse db.now.trail.entries (lits_of db.now.clauses conflict) }
    requires above { 1 ≤ db.now.trail.level }
    requires vars { walker.old.vars ≡ db.now.trail.vars }
    ensures analysed { OnOk result
        (IsAnalysed db.now.trail (named_in db.now.clauses) (named_in db.now.clauses conflict) walker.new) }
    ensures vars { walker.new.vars ≡ walker.old.vars }
{
    walker.analyse(&Sight { db }, conflict, db.level())
}
