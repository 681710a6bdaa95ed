//! The last clause of a refutation: the empty one, or the negated assumption alone. Where a live clause is it already,
//! that one is named, since another one would not be new.

ghost use Rattle.std.specs.Prelude.{◌≡◌, ◌≢◌, ◌↔◌, ◌+◌, ◌<◌, ◌≤◌, ◌∷◌, [], ℕ};
ghost use Rattle.std.specs.Prelude.{length, IsTrue, IsNone, IfSome, IfOk, OnOk, None, Some, Ok};
ghost use Rattle.order_ints.specs.Truth.{not_lit};
ghost use Rattle.clause_arena.specs.Clauses.{clause_at, IsLive, lits_of};
ghost use Rattle.literal_trail.specs.Standing.{IsFalse};
ghost use Rattle.clause_rings.specs.Clauses.{IsComplete};
ghost use Rattle.learning_solver.specs.Ending.{last_lits, IsNamedBy, IsDenied, IsRefuting, NoneStands};
ghost use Rattle.literal_trail.specs.declared.entry.Entry.{Entry};
ghost use Rattle.conflict_analysis.specs.Analysis.{IsRefuted, IsForced};
ghost use Rattle.learning_solver.specs.Sight.{named_in};
ghost use Rattle.learning_solver.specs.Searching.{IsSearch, IsReady, Stays, IsRunning, IsTurned, GoesForward};

use crate::found::Found;
use crate::lesson::Lesson;
use crate::restarts::Restarts;
use crate::search::Search;
use crate::sight::Sight;
use crate::task::Task;
use clause_rings::ClauseDb;
use order_ints::Lit;
use std::alloc::AllocError;

/// Whether a clause is there, and has no literal, or one literal alone.
fn is_last(db: &ClauseDb, c: u32, last: Option<Lit>) -> bool
    ensures { IsTrue result
        ↔ (IsLive db.now.clauses c × (lits_of db.now.clauses c ≡ last_lits last)) }
{
    if !db.is_live(c) {
        return false;
    }
    match last {
        None => db.len(c) == 0,
        Some(l) => db.len(c) == 1 && db.lit_at(c, 0) == l,
    }
}

/// The id of a clause of no literal, or of one literal alone. It looks at each clause.
fn find_last(db: &ClauseDb, last: Option<Lit>) -> Option<u64>
    ensures found { IfSome result (IsNamedBy db.now.clauses (last_lits last)) }
    ensures none { IsNone result
        → (c : ℕ) → IsLive db.now.clauses c → lits_of db.now.clauses c ≢ last_lits last }
{
    for c in 0..db.references() {
        if is_last(db, c, last) {
            return Some(db.id(c));
        }
    }
    None
}

/// The id of a clause that is empty, or the negated assumption alone.
fn find_refutation(db: &ClauseDb, assumption: Option<Lit>) -> Option<u64>
    ensures found { IfSome result (IsRefuting db.now.clauses assumption) }
    ensures none { IsNone result → NoneStands db.now.clauses assumption }
{
    if let Some(id) = find_last(db, None) {
        return Some(id);
    }
    match assumption {
        None => None,
        Some(a) => find_last(db, Some(a.negated())),
    }
}

impl Search<'_> {
    /// Ends a search where a clause is false at level 0.
    pub fn refute(
        &mut self,
        conflict: u32,
        task: Task,
        restarts: &Restarts,
    ) -> Result<Option<Found>, AllocError>
        requires running { IsRunning task restarts.now self.old }
        requires live { IsLive self.old.db.clauses conflict }
        requires is_false { IsFalse self.old.db.trail.entries (lits_of self.old.db.clauses conflict) }
        requires bottom { self.old.db.trail.level ≡ 0 }
        ensures turned { IsTurned task self.old restarts.now self.new result }
        ensures forward { GoesForward self.old self.new }
    {
        if let Some(id) = find_refutation(&self.db, task.assumption) {
            return Ok(Some(Found::Refuted(id)));
        }
        if self.added >= task.budget {
            return Ok(Some(Found::Spent));
        }
        let Ok(lesson) = self.lesson_of_refutation(conflict) else {
            return Err(AllocError);
        };
        let id = lesson.id;
        let _clause = self.take(lesson);
        Ok(Some(Found::Refuted(id)))
    }

    /// The empty clause, with its hints and its room.
    fn lesson_of_refutation(&mut self, conflict: u32) -> Result<Lesson, AllocError>
        requires search { IsSearch self.old }
        requires live { IsLive self.old.db.clauses conflict }
        requires is_false { IsFalse self.old.db.trail.entries (lits_of self.old.db.clauses conflict) }
        requires bottom { self.old.db.trail.level ≡ 0 }
        ensures ready { IfOk result (IsReady self.new) }
        ensures refuted { OnOk result
            (IsRefuted self.old.db.trail (named_in self.old.db.clauses) (named_in self.old.db.clauses conflict) []
            self.new.walker) }
        ensures stays { Stays self.old self.new }
        ensures search { IsSearch self.new }
    {
        self.walker.refute(&Sight { db: &self.db }, conflict)?;
        self.lesson()
    }

    /// The clause of the negated assumption alone, with its hints and its room.
    fn lesson_of_denial(&mut self, denied: Lit, reason: u32) -> Result<Lesson, AllocError>
        requires search { IsSearch self.old }
        requires forced { (e : Entry) × IsForced self.old.db.trail.entries denied.var e reason × (e.lit ≡ denied) }
        ensures ready { IfOk result (IsReady self.new) }
        ensures refuted { OnOk result
            (IsRefuted self.old.db.trail (named_in self.old.db.clauses) (named_in self.old.db.clauses reason)
            (denied ∷ []) self.new.walker) }
        ensures stays { Stays self.old self.new }
        ensures search { IsSearch self.new }
    {
        self.walker
            .confirm(&Sight { db: &self.db }, denied, reason)?;
        self.lesson()
    }

    /// Ends a search where the negated assumption is true at level 0, by a clause.
    pub fn deny(
        &mut self,
        denied: Lit,
        reason: u32,
        task: Task,
        restarts: &Restarts,
    ) -> Result<Option<Found>, AllocError>
        requires running { IsRunning task restarts.now self.old }
        requires complete { IsComplete self.old.db.trail.entries self.old.db.clauses }
        requires bottom { self.old.db.trail.level ≡ 0 }
        requires denied { IsDenied self.old.db.trail task.assumption denied reason }
        ensures turned { IsTurned task self.old restarts.now self.new result }
        ensures forward { GoesForward self.old self.new }
    {
        if let Some(id) = find_last(&self.db, Some(denied)) {
            return Ok(Some(Found::Refuted(id)));
        }
        if self.added >= task.budget {
            return Ok(Some(Found::Spent));
        }
        let Ok(lesson) = self.lesson_of_denial(denied, reason) else {
            return Err(AllocError);
        };
        let id = lesson.id;
        let _clause = self.take(lesson);
        Ok(Some(Found::Refuted(id)))
    }
}
