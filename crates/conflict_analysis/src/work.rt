//! The course of an analysis: the walk, what is implied, and the hints.

ghost use Rattle.std.specs.Prelude.{◌≡◌, ◌≢◌, ◌+◌, ◌<◌, ◌≤◌, ◌∷◌, [], ℕ, List};
ghost use Rattle.std.specs.Prelude.{length, replicate, reverse, OnOk, IfOk, OnErr};
ghost use Rattle.std.specs.List.{All};
ghost use Rattle.order_ints.specs.declared.literal.Lit.{Lit};
ghost use Rattle.literal_trail.specs.Trail.{IsTrail, level_in};
ghost use Rattle.proof_check.specs.Named.{Named};
ghost use Rattle.conflict_analysis.specs.Reasons.{AreReasons};
ghost use Rattle.conflict_analysis.specs.Marking.{mark_at};
ghost use Rattle.conflict_analysis.specs.Learned.{IsConflict};
ghost use Rattle.conflict_analysis.specs.Resolving.{IsResolving};
ghost use Rattle.conflict_analysis.specs.Seeking.{IsSeeking, AreRoots};
ghost use Rattle.conflict_analysis.specs.Working.{IsWork, AreWalked, IsDerived, IsEnded, IsLearning, IsSpared};
ghost use Rattle.conflict_analysis.specs.Working.{IsBottom};

use crate::collect::mark_levels;
use crate::follow::follow;
use crate::marks::{Mark, Marks};
use crate::meeting::meet;
use crate::minimiser::Minimiser;
use crate::reasons::Reasons;
use crate::walk::walk;
use order_ints::Lit;
use smallvec::SmallVec;
use std::alloc::{AllocError, Global};

/// What is marked in an analysis.
#[derive(Drop)]
pub struct Work {
    /// What is met and what is resolved.
    pub met: Marks,
    /// Which levels the clause has.
    pub levels: Marks,
    /// What those that stay imply.
    pub minimiser: Minimiser,
}

/// Turns the hints round.
fn turn(hints: &mut SmallVec<u64, 16>)
    ensures { hints.new.items ≡ reverse hints.old.items }
{
    hints.as_mut_slice().reverse();
}

impl Work {
    /// Room for the variables 1 to `vars`.
    pub fn with(alloc: Global, vars: u32) -> Result<Work, AllocError>
        ensures size { IfOk result (λ w. length w.met.cells ≡ vars + 1) }
        ensures work { IfOk result IsWork }
    {
        let met = Marks::with(alloc, vars)?;
        let levels = Marks::with(alloc, vars)?;
        let minimiser = Minimiser::with(alloc, vars)?;
        Ok(Work {
            met,
            levels,
            minimiser,
        })
    }

    /// Nothing is marked any more.
    fn clear(&mut self)
        ensures met { self.new.met.cells ≡ replicate (length self.old.met.cells) Mark.Blank }
        ensures levels { length self.new.levels.cells ≡ length self.old.levels.cells }
        ensures minimiser { self.new.minimiser.marks.cells
            ≡ replicate (length self.old.minimiser.marks.cells) Mark.Blank }
        ensures stack { self.new.minimiser.stack.items ≡ [] }
        ensures order { self.new.minimiser.order.items ≡ [] }
    {
        self.met.clear();
        self.levels.clear();
        self.minimiser.clear();
    }

    /// Resolves what those that stay imply, and puts the hints into their order.
    fn resolve_implied<T: Reasons>(
        &mut self,
        hints: &mut SmallVec<u64, 16>,
        source: &T,
    ) -> Result<(), AllocError>
        requires trail { IsTrail (T.trail source.now) }
        requires reasons { AreReasons (T.trail source.now).entries (T.named source.now) (T.lives source.now) }
        requires work { IsWork self.old }
        requires size { length self.old.met.cells ≡ (T.trail source.now).vars + 1 }
        requires walked { AreWalked self.old.met.cells }
        requires roots { AreRoots (T.trail source.now).entries self.old.met.cells self.old.minimiser.marks.cells }
        requires stack { self.old.minimiser.stack.items ≡ [] }
        requires seeking { IsSeeking (T.trail source.now).entries (T.named source.now) self.old.met.cells
            self.old.minimiser.marks.cells [] self.old.minimiser.order.items }
        ensures ended { OnOk result ((spare : List Lit) (bound : ℕ) (conflict : Named) →
            IsResolving (T.trail source.now).entries (T.named source.now) spare bound conflict
            self.old.met.cells hints.old.items →
            IsEnded (T.trail source.now).entries (T.named source.now) spare bound conflict
            self.old.met.cells self.old.minimiser.marks.cells self.new.met.cells hints.new.items) }
        ensures work { IsWork self.new }
        ensures size { length self.new.met.cells ≡ length self.old.met.cells }
    {
        mark_levels(&mut self.levels, &self.met, source)?;
        self.minimiser.seek(&self.met, &self.levels, source)?;
        follow(
            &mut self.met,
            hints,
            source,
            &self.minimiser.marks,
            self.minimiser.order.as_slice(),
        )?;
        turn(hints);
        Ok(())
    }

    /// Learns at a conflict: gives the literal of the current level that stays. Those of lower levels that stay are
    /// met. `seen` is what the walk met.
    pub fn learn<T: Reasons>(
        &mut self,
        hints: &mut SmallVec<u64, 16>,
        seen: &mut Vec<u32>,
        source: &T,
        conflict: u32,
        level: u32,
    ) -> Result<Lit, AllocError>
        requires trail { IsTrail (T.trail source.now) }
        requires reasons { AreReasons (T.trail source.now).entries (T.named source.now) (T.lives source.now) }
        requires live { T.lives source.now conflict }
        requires conflict { IsConflict (T.trail source.now) (T.named source.now conflict).lits }
        requires level { level ≡ (T.trail source.now).level }
        requires above { 0 < level }
        requires work { IsWork self.old }
        requires size { length self.old.met.cells ≡ (T.trail source.now).vars + 1 }
        ensures learning { IfOk result
            (λ first. IsLearning (T.trail source.now) (T.named source.now) (T.named source.now conflict)
            self.new.met.cells hints.new.items first) }
        ensures seen { OnOk result (All (λ v. v ≤ (T.trail source.now).vars) seen.new.items) }
        ensures work { IsWork self.new }
        ensures size { length self.new.met.cells ≡ length self.old.met.cells }
    {
        self.clear();
        hints.clear();
        seen.clear();
        let first = walk(&mut self.met, hints, source, conflict, level)?;
        seen.extend_from_slice(self.met.touched())?;
        self.minimiser.keep(first.var)?;
        self.resolve_implied(hints, source)?;
        Ok(first)
    }

    /// Resolves all that a clause needs at level 0, but the variable `over`, which may be 0 for none.
    pub fn derive<T: Reasons>(
        &mut self,
        hints: &mut SmallVec<u64, 16>,
        source: &T,
        conflict: u32,
        over: u32,
    ) -> Result<(), AllocError>
        requires trail { IsTrail (T.trail source.now) }
        requires reasons { AreReasons (T.trail source.now).entries (T.named source.now) (T.lives source.now) }
        requires live { T.lives source.now conflict }
        requires work { IsWork self.old }
        requires size { length self.old.met.cells ≡ (T.trail source.now).vars + 1 }
        requires over { over ≤ (T.trail source.now).vars }
        requires bottom { IsBottom (T.trail source.now).entries over (T.named source.now conflict).lits }
        ensures derived { OnOk result ((spare : List Lit) (bound : ℕ)
            → IsSpared (T.trail source.now).entries spare bound over (T.named source.now conflict).lits →
            IsDerived (T.trail source.now).entries (T.named source.now) spare bound (T.named source.now conflict)
            self.new.met.cells hints.new.items) }
        ensures none { OnOk result ((v : ℕ) → mark_at self.new.met.cells v ≢ Mark.Met) }
        ensures work { IsWork self.new }
        ensures size { length self.new.met.cells ≡ length self.old.met.cells }
    {
        self.clear();
        hints.clear();
        hints.push(source.id(conflict))?;
        let _ = meet(&mut self.met, source, conflict, over, 0)?;
        self.resolve_implied(hints, source)?;
        Ok(())
    }
}
