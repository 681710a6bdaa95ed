//! The analysis of conflicts.
//!
//! From the clause that is false the literals of the current level are resolved until one is left, so that the
//! clause says what that literal is at an earlier level (Marques-Silva and Sakallah, 1996). Then literals go that
//! the others imply (Sörensson and Biere, 2009), and those of level 0. The hints name the reasons of all that was
//! resolved, each when it is unit, so that a checker takes the clause without a search of its own (Wetzler, Heule
//! and Hunt, 2014; Cruz-Filipe, Heule, Hunt, Kaufmann and Schneider-Kamp, 2017).

ghost use Rattle.std.specs.Prelude.{◌≡◌, ◌+◌, ◌<◌, ◌≤◌, ◌∷◌, [], length, OnOk, IfOk, ℕ};
ghost use Rattle.literal_trail.specs.declared.entry.Entry.{Entry};
ghost use Rattle.literal_trail.specs.Trail.{IsTrail};
ghost use Rattle.conflict_analysis.specs.Reasons.{AreReasons};
ghost use Rattle.conflict_analysis.specs.Learned.{IsConflict};
ghost use Rattle.conflict_analysis.specs.Analysis.{IsAnalysed, IsRefuted, IsFalseAtBottom, IsForced};

use crate::collect::{collect, count_levels};
use crate::reasons::Reasons;
use crate::work::Work;
use order_ints::Lit;
use smallvec::SmallVec;
use std::alloc::{AllocError, Global};
use std::marker::Model;

/// What analyses use, kept from one to the next: some ten bytes for each variable. It shows what the last one
/// found.
pub struct Walker {
    work: Work,
    lits: Vec<Lit>,
    hints: SmallVec<u64, 16>,
    seen: Vec<u32>,
    jump: u32,
    glue: u32,
}

impl Model for Walker {
    ghost use Rattle.std.specs.Prelude.{◌≡◌, ◌-◌, ◌<◌, length};
    ghost use Rattle.conflict_analysis.specs.Analysis.{Analysis};
    ghost use Rattle.conflict_analysis.specs.Working.{IsWork};

    ghost Value = { Analysis };

    ghost view = { λ w. record {
      vars = length w.work.met.cells - 1;
      lits = w.lits.items;
      hints = w.hints.items;
      jump = w.jump;
      glue = w.glue;
      seen = w.seen.items;
    } };

    ghost invariant = { λ w. IsWork w.work };
}

/// By hand, so that a function in which a walker falls out of use need not tell how its hints are kept.
impl Drop for Walker {
    fn drop(self) {
        let Walker {
            work,
            lits,
            hints,
            seen,
            jump,
            glue,
        } = self;
        drop((work, lits, hints, seen, jump, glue));
    }
}

impl Walker {
    /// Room for the variables 1 to `vars`.
    pub fn with(alloc: Global, vars: u32) -> Result<Walker, AllocError>
        ensures { IfOk result (λ w. w.vars ≡ vars) }
    {
        let work = Work::with(alloc, vars)?;
        Ok(Walker {
            work,
            lits: Vec::new(alloc),
            hints: SmallVec::new(alloc),
            seen: Vec::new(alloc),
            jump: 0,
            glue: 0,
        })
    }

    /// The literals of the clause: the one of the current level first, and then one of the greatest other level.
    pub fn lits(&self) -> &[Lit]
        ensures { result.now ≡ self.now.lits }
    {
        self.lits.as_slice()
    }

    /// The hints of the clause.
    pub fn hints(&self) -> &[u64]
        ensures { result.now ≡ self.now.hints }
    {
        self.hints.as_slice()
    }

    /// The greatest level of the literals behind the first, 0 where there is none: the level to jump back to.
    pub fn jump(&self) -> u32
        ensures { result ≡ self.now.jump }
    {
        self.jump
    }

    /// The number of different levels of the literals (Audemard and Simon, 2009).
    pub fn glue(&self) -> u32
        ensures { result ≡ self.now.glue }
    {
        self.glue
    }

    /// The variables that the walk met.
    pub fn seen(&self) -> &[u32]
        ensures { result.now ≡ self.now.seen }
    {
        self.seen.as_slice()
    }

    /// Learns a clause at a conflict above level 0. It takes the time of the clauses that are resolved or looked
    /// at, whatever the length of the trail below the current level. After a refusal it shows no clause in
    /// particular, and the next analysis starts afresh.
    pub fn analyse<T: Reasons>(
        &mut self,
        source: &T,
        conflict: u32,
        level: u32,
    ) -> Result<(), AllocError>
        requires trail { IsTrail (T.trail source.now) }
        requires reasons { AreReasons (T.trail source.now).entries (T.named source.now) (T.lives source.now) }
        requires live { T.lives source.now conflict }
        requires conflict { IsConflict (T.trail source.now) (T.named source.now conflict).lits }
        requires level { level ≡ (T.trail source.now).level }
        requires above { 0 < level }
        requires vars { self.old.vars ≡ (T.trail source.now).vars }
        ensures analysed { OnOk result
            (IsAnalysed (T.trail source.now) (T.named source.now) (T.named source.now conflict) self.new) }
        ensures vars { self.new.vars ≡ self.old.vars }
    {
        self.lits.clear();
        let first = self
            .work
            .learn(&mut self.hints, &mut self.seen, source, conflict, level)?;
        let jump = collect(&mut self.lits, &self.work.met, source, first)?;
        let glue = count_levels(&mut self.work.levels, source, self.lits.as_slice())?;
        self.jump = jump;
        self.glue = glue;
        Ok(())
    }

    /// Finds the hints of the empty clause, where a clause is false at level 0.
    pub fn refute<T: Reasons>(&mut self, source: &T, conflict: u32) -> Result<(), AllocError>
        requires trail { IsTrail (T.trail source.now) }
        requires reasons { AreReasons (T.trail source.now).entries (T.named source.now) (T.lives source.now) }
        requires live { T.lives source.now conflict }
        requires conflict { IsFalseAtBottom (T.trail source.now).entries (T.named source.now conflict).lits }
        requires vars { self.old.vars ≡ (T.trail source.now).vars }
        ensures refuted { OnOk result
            (IsRefuted (T.trail source.now) (T.named source.now) (T.named source.now conflict) [] self.new) }
        ensures vars { self.new.vars ≡ self.old.vars }
    {
        self.lits.clear();
        self.work.derive(&mut self.hints, source, conflict, 0)?;
        Ok(())
    }

    /// Finds the hints of a clause of one literal that is true at level 0, by the reason of its variable.
    pub fn confirm<T: Reasons>(
        &mut self,
        source: &T,
        literal: Lit,
        reason: u32,
    ) -> Result<(), AllocError>
        requires trail { IsTrail (T.trail source.now) }
        requires reasons { AreReasons (T.trail source.now).entries (T.named source.now) (T.lives source.now) }
        requires forced { (e : Entry) × IsForced (T.trail source.now).entries literal.var e reason
            × (e.lit ≡ literal) }
        requires vars { self.old.vars ≡ (T.trail source.now).vars }
        ensures refuted { OnOk result
            (IsRefuted (T.trail source.now) (T.named source.now) (T.named source.now reason) (literal ∷ [])
            self.new) }
        ensures vars { self.new.vars ≡ self.old.vars }
    {
        self.lits.clear();
        self.work
            .derive(&mut self.hints, source, reason, literal.var)?;
        self.lits.push(literal)?;
        Ok(())
    }
}
