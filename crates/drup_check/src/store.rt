//! The clauses that a proof has so far.

ghost use Rattle.std.specs.Prelude.{◌≡◌, ◌+◌, ◌≤◌, ◌^◌, ◌↔◌, ◌∷◌, ◌++◌, [], List};
ghost use Rattle.std.specs.Prelude.{Contains, IfOk, IsTrue, MatchBool};
ghost use Rattle.bee_text.specs.Gaps.{words_of};
ghost use Rattle.order_ints.specs.declared.literal.Lit.{Lit};
ghost use Rattle.order_ints.specs.Place.{LitBelow, InRange};
ghost use Rattle.clause_rings.specs.Clauses.{AreApartIn};
ghost use Rattle.drup_check.specs.Rup.{Rup};
ghost use Rattle.drup_check.specs.Standing.{StandsAs};
ghost use Rattle.drup_check.specs.DrupLines.{Says, ShowEmpty};
ghost use Rattle.drup_check.specs.Taken.{IsSpelled, SaysOn, GoesOn, Misfits};

use crate::tiers::{Tiers, Trial, start};
use crate::words::read_clause;
use bee_text::next_word;
use order_ints::{Cnf, Lit};
use sat_front::is_word;
use std::alloc::{AllocError, Global};

/// Clauses that a proof has so far. Once they show the empty one, no more are stored.
#[derive(Drop)]
pub(crate) struct ProofStore {
    tiers: Tiers,
    refuted: bool,
}

impl ProofStore {
    /// The clauses of a CNF, and what follows from its units.
    pub(crate) fn with(alloc: Global, cnf: &Cnf) -> Result<ProofStore, AllocError>
        requires few { cnf.now.vars ≤ 2 ^ 27 }
        requires in_range { InRange cnf.now }
        requires apart { AreApartIn cnf.now }
        ensures stands { IfOk result (λ made. StandsAs made.refuted made.tiers cnf.now.clauses) }
        ensures vars { IfOk result (λ made. made.tiers.db.trail.vars ≡ cnf.now.vars) }
    {
        let (tiers, refuted) = start(alloc, cnf)?;
        Ok(ProofStore { tiers, refuted })
    }

    /// Whether the clauses show the empty one.
    pub(crate) fn is_refuted(&mut self, alloc: Global) -> Result<bool, AllocError>
        requires stands { (cs : List (List Lit)) × StandsAs self.old.refuted self.old.tiers cs }
        ensures { IfOk result (λ refuted. (cs : List (List Lit)) → StandsAs self.old.refuted self.old.tiers cs
            → IsTrue refuted ↔ ShowEmpty cs) }
    {
        if self.refuted {
            return Ok(true);
        }
        let refuted = self.tiers.bring_back(alloc)?;
        Ok(refuted)
    }

    /// Takes a clause, if the others show it.
    fn take_clause(&mut self, alloc: Global, lits: &[Lit]) -> Result<bool, AllocError>
        requires lits { (l : Lit) → Contains lits.now l → LitBelow (self.old.tiers.db.trail.vars + 1) l }
        requires stands { (cs : List (List Lit)) × StandsAs self.old.refuted self.old.tiers cs }
        ensures taken { IfOk result (λ taken. (cs : List (List Lit)) → StandsAs self.old.refuted self.old.tiers cs
            → MatchBool taken (Rup cs lits.now × StandsAs self.new.refuted self.new.tiers (cs ++ lits.now ∷ []))
            (Rup cs lits.now → ⊥)) }
        ensures vars { IfOk result (λ _. self.new.tiers.db.trail.vars ≡ self.old.tiers.db.trail.vars) }
    {
        if self.refuted {
            return Ok(true);
        }
        match self.tiers.try_clause(alloc, lits)? {
            Trial::Missing => Ok(false),
            Trial::Refuted => {
                self.refuted = true;
                Ok(true)
            }
            Trial::Shown => {
                self.refuted = self.tiers.keep(alloc, lits)?;
                Ok(true)
            }
        }
    }

    /// Takes note of a clause that is deleted.
    fn delete(&mut self, alloc: Global, lits: &[Lit]) -> Result<(), AllocError>
        ensures stands { IfOk result (λ _. (cs : List (List Lit)) → StandsAs self.old.refuted self.old.tiers cs
            → StandsAs self.new.refuted self.new.tiers cs) }
        ensures vars { IfOk result (λ _. self.new.tiers.db.trail.vars ≡ self.old.tiers.db.trail.vars) }
    {
        if !self.refuted {
            self.tiers.delete(alloc, lits)?;
        }
        Ok(())
    }

    /// Takes the words of a deletion, behind its first one.
    fn take_deletion(&mut self, alloc: Global, words: &[u8]) -> Result<bool, AllocError>
        requires few { self.old.tiers.db.trail.vars ≤ 2 ^ 27 }
        ensures spelled { IfOk result (λ taken. IsSpelled taken self.old.tiers.db.trail.vars (words_of words.now)) }
        ensures stands { IfOk result (λ _. (cs : List (List Lit)) → StandsAs self.old.refuted self.old.tiers cs
            → StandsAs self.new.refuted self.new.tiers cs) }
        ensures vars { IfOk result (λ _. self.new.tiers.db.trail.vars ≡ self.old.tiers.db.trail.vars) }
    {
        let vars = self.tiers.db.vars();
        match read_clause(alloc, vars, words)? {
            Some(lits) => {
                self.delete(alloc, lits.as_slice())?;
                Ok(true)
            }
            None => Ok(false),
        }
    }

    /// Takes a line that says something, with its first word apart.
    fn take_said(
        &mut self,
        alloc: Global,
        line: &[u8],
        first: &[u8],
        behind: &[u8],
    ) -> Result<bool, AllocError>
        requires few { self.old.tiers.db.trail.vars ≤ 2 ^ 27 }
        requires words { words_of line.now ≡ first.now ∷ words_of behind.now }
        requires stands { (cs : List (List Lit)) × StandsAs self.old.refuted self.old.tiers cs }
        ensures taken { IfOk result (λ taken. (cs : List (List Lit)) → StandsAs self.old.refuted self.old.tiers cs
            → MatchBool taken
            (SaysOn self.old.tiers.db.trail.vars cs (words_of line.now) self.new.refuted self.new.tiers)
            ((after : List (List Lit)) → Says self.old.tiers.db.trail.vars cs (words_of line.now) after → ⊥)) }
        ensures vars { IfOk result (λ _. self.new.tiers.db.trail.vars ≡ self.old.tiers.db.trail.vars) }
    {
        let vars = self.tiers.db.vars();
        if is_word(first, b"d") {
            let taken = self.take_deletion(alloc, behind)?;
            return Ok(taken);
        }
        match read_clause(alloc, vars, line)? {
            Some(lits) => self.take_clause(alloc, lits.as_slice()),
            None => Ok(false),
        }
    }

    /// Takes a line, if it may stand next.
    pub(crate) fn take_line(&mut self, alloc: Global, line: &[u8]) -> Result<bool, AllocError>
        requires few { self.old.tiers.db.trail.vars ≤ 2 ^ 27 }
        requires stands { (cs : List (List Lit)) × StandsAs self.old.refuted self.old.tiers cs }
        ensures taken { IfOk result (λ taken. (cs : List (List Lit)) → StandsAs self.old.refuted self.old.tiers cs
            → MatchBool taken (GoesOn self.old.tiers.db.trail.vars cs line.now self.new.refuted self.new.tiers)
            (Misfits self.old.tiers.db.trail.vars cs line.now)) }
        ensures vars { IfOk result (λ _. self.new.tiers.db.trail.vars ≡ self.old.tiers.db.trail.vars) }
    {
        match next_word(line) {
            None => Ok(true),
            Some((first, behind)) => {
                if is_word(first, b"c") {
                    Ok(true)
                } else {
                    self.take_said(alloc, line, first, behind)
                }
            }
        }
    }
}
