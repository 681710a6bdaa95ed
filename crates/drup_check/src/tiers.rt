//! Two tiers of clauses: those that are watched, and beside them those that were deleted.

ghost use Rattle.std.specs.Prelude.{◌≡◌, ◌+◌, ◌≤◌, ◌^◌, ◌∷◌, ◌++◌, [], List, Contains};
ghost use Rattle.std.specs.Prelude.{IfOk, IsTrue};
ghost use Rattle.order_ints.specs.declared.literal.Lit.{Lit};
ghost use Rattle.order_ints.specs.Place.{LitBelow, InRange};
ghost use Rattle.clause_rings.specs.Clauses.{AreApartIn, IsComplete};
ghost use Rattle.drup_check.specs.Rup.{Rup};
ghost use Rattle.drup_check.specs.Keeping.{IsTakenIn};
ghost use Rattle.drup_check.specs.Standing.{Stands, StandsAs, IsBroughtBack, IsTried};

use crate::aside::{copied, may_leave};
use crate::index::ClauseIndex;
use crate::keeping::{Kept, keep};
use crate::shown::is_shown;
use bee_list::Sequence;
use clause_rings::{ClauseDb, ClauseRef};
use order_ints::{Cnf, Lit};
use std::alloc::{AllocError, Global};

/// Clauses of which some are watched, and the others were deleted.
#[derive(Drop)]
pub(crate) struct Tiers {
    pub(crate) db: ClauseDb,
    pub(crate) gone: Vec<Sequence<Lit>>,
    index: ClauseIndex,
}

/// What a trial of a clause says.
#[derive(Clone, Copy)]
pub(crate) enum Trial {
    /// The clauses show it.
    Shown,
    /// They don't.
    Missing,
    /// They show the empty clause.
    Refuted,
}

/// The clauses of a CNF, and what follows from its units. The answer says whether they show the empty clause.
pub(crate) fn start(alloc: Global, cnf: &Cnf) -> Result<(Tiers, bool), AllocError>
    requires few { cnf.now.vars ≤ 2 ^ 27 }
    requires in_range { InRange cnf.now }
    requires apart { AreApartIn cnf.now }
    ensures stands { IfOk result (λ made. StandsAs made.1 made.0 cnf.now.clauses) }
    ensures vars { IfOk result (λ made. made.0.db.trail.vars ≡ cnf.now.vars) }
{
    let mut db = ClauseDb::with(alloc, cnf)?;
    let index = ClauseIndex::of(alloc, &db)?;
    let refuted = db.propagate().is_some();
    let gone = Vec::new(alloc);
    Ok((Tiers { db, gone, index }, refuted))
}

impl Tiers {
    /// Whether the watched clauses show a clause.
    fn shows(&mut self, lits: &[Lit]) -> bool
        requires lits { (l : Lit) → Contains lits.now l → LitBelow (self.old.db.trail.vars + 1) l }
        requires stands { (cs : List (List Lit)) × Stands self.old cs }
        ensures stands { (cs : List (List Lit)) → Stands self.old cs → Stands self.new cs }
        ensures shown { (cs : List (List Lit)) → Stands self.old cs → IsTrue result → Rup cs lits.now }
        ensures all { (cs : List (List Lit)) → Stands self.old cs → self.old.gone.items ≡ [] → Rup cs lits.now
            → IsTrue result }
        ensures gone { self.new.gone ≡ self.old.gone }
        ensures vars { self.new.db.trail.vars ≡ self.old.db.trail.vars }
    {
        is_shown(&mut self.db, lits)
    }

    /// Adds a clause to those that are watched; a copy of one of these is only counted. The answer says whether they
    /// show the empty one then.
    fn take_in(&mut self, alloc: Global, lits: &[Lit]) -> Result<bool, AllocError>
        requires lits { (l : Lit) → Contains lits.now l → LitBelow (self.old.db.trail.vars + 1) l }
        requires bottom { self.old.db.trail.level ≡ 0 }
        requires complete { IsComplete self.old.db.trail.entries self.old.db.clauses }
        ensures taken { IfOk result (λ refuted. IsTakenIn refuted self.old.db self.new.db lits.now) }
        ensures gone { IfOk result (λ _. self.new.gone ≡ self.old.gone) }
        ensures vars { IfOk result (λ _. self.new.db.trail.vars ≡ self.old.db.trail.vars) }
    {
        if self.index.note_copy(alloc, &self.db, lits)? {
            return Ok(false);
        }
        match keep(alloc, &mut self.db, lits, 0)? {
            Kept::Refutes(_) => Ok(true),
            Kept::Idle => Ok(false),
            Kept::Stored(reference) => {
                self.index.note(lits, reference)?;
                Ok(false)
            }
        }
    }

    /// Adds a clause. The answer says whether the clauses show the empty one then.
    pub(crate) fn keep(&mut self, alloc: Global, lits: &[Lit]) -> Result<bool, AllocError>
        requires lits { (l : Lit) → Contains lits.now l → LitBelow (self.old.db.trail.vars + 1) l }
        requires stands { (cs : List (List Lit)) × Stands self.old cs }
        ensures stands { IfOk result (λ refuted. (cs : List (List Lit)) → Stands self.old cs
            → StandsAs refuted self.new (cs ++ lits.now ∷ [])) }
        ensures vars { IfOk result (λ _. self.new.db.trail.vars ≡ self.old.db.trail.vars) }
    {
        let refuted = self.take_in(alloc, lits)?;
        Ok(refuted)
    }

    /// Puts all deleted clauses back. The answer says whether the clauses show the empty one.
    pub(crate) fn bring_back(&mut self, alloc: Global) -> Result<bool, AllocError>
        requires stands { (cs : List (List Lit)) × Stands self.old cs }
        ensures stands { IfOk result (λ refuted. (cs : List (List Lit)) → Stands self.old cs
            → IsBroughtBack refuted self.new cs) }
        ensures vars { IfOk result (λ _. self.new.db.trail.vars ≡ self.old.db.trail.vars) }
    {
        while let Some(clause) = self.gone.pop() {
            if self.take_in(alloc, clause.as_slice())? {
                return Ok(true);
            }
        }
        Ok(false)
    }

    /// Whether the clauses show a clause, where none is deleted.
    fn try_all(&mut self, lits: &[Lit]) -> Trial
        requires lits { (l : Lit) → Contains lits.now l → LitBelow (self.old.db.trail.vars + 1) l }
        requires stands { (cs : List (List Lit)) × Stands self.old cs }
        requires all { self.old.gone.items ≡ [] }
        ensures tried { (cs : List (List Lit)) → Stands self.old cs → IsTried result self.new cs lits.now }
        ensures vars { self.new.db.trail.vars ≡ self.old.db.trail.vars }
    {
        if self.shows(lits) {
            Trial::Shown
        } else {
            Trial::Missing
        }
    }

    /// Whether the clauses show a clause: first those that are watched, and then all. It takes the time of propagation
    /// from the denial of the literals; where the watched ones don't show it, all that were deleted come back.
    pub(crate) fn try_clause(&mut self, alloc: Global, lits: &[Lit]) -> Result<Trial, AllocError>
        requires lits { (l : Lit) → Contains lits.now l → LitBelow (self.old.db.trail.vars + 1) l }
        requires stands { (cs : List (List Lit)) × Stands self.old cs }
        ensures tried { IfOk result (λ trial. (cs : List (List Lit)) → Stands self.old cs
            → IsTried trial self.new cs lits.now) }
        ensures vars { IfOk result (λ _. self.new.db.trail.vars ≡ self.old.db.trail.vars) }
    {
        if self.shows(lits) {
            return Ok(Trial::Shown);
        }
        if self.bring_back(alloc)? {
            return Ok(Trial::Refuted);
        }
        let trial = self.try_all(lits);
        Ok(trial)
    }

    /// Takes a clause out of those that are watched, unless a literal is true for it.
    fn set_aside(&mut self, alloc: Global, c: ClauseRef) -> Result<(), AllocError>
        ensures stands { IfOk result (λ _. (cs : List (List Lit)) → Stands self.old cs → Stands self.new cs) }
        ensures vars { IfOk result (λ _. self.new.db.trail.vars ≡ self.old.db.trail.vars) }
    {
        let _vars = self.db.vars();
        if may_leave(&self.db, c) {
            let lits = copied(alloc, &self.db, c)?;
            self.gone.push(lits)?;
            self.db.delete(c);
        }
        Ok(())
    }

    /// Takes a clause with these literals out of those that are watched, where one is found and no copy of it is left.
    pub(crate) fn delete(&mut self, alloc: Global, lits: &[Lit]) -> Result<(), AllocError>
        ensures stands { IfOk result (λ _. (cs : List (List Lit)) → Stands self.old cs → Stands self.new cs) }
        ensures vars { IfOk result (λ _. self.new.db.trail.vars ≡ self.old.db.trail.vars) }
    {
        if let Some(c) = self.index.take(lits)? {
            self.set_aside(alloc, c)?;
        }
        Ok(())
    }
}
