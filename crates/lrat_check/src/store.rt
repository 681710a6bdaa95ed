//! The clauses that a proof has so far.

ghost use Rattle.std.specs.Prelude.{◌≡◌, ◌==◌, ◌||◌, ◌≤◌, ◌^◌, ◌∷◌, None, Some, length, IfOk, OnOk, IsTrue, MatchBool};
ghost use Rattle.std.specs.Prelude.{nat_eq};
ghost use Rattle.indexmap.specs.IndexMap.{insert_entry};
ghost use Rattle.std.specs.List.{list_any};
ghost use Rattle.bee_text.specs.Gaps.{words_of};
ghost use Rattle.order_ints.specs.Place.{InRange};
ghost use Rattle.proof_check.specs.declared.line.ProofLine.TheVariants.{Add};
ghost use Rattle.lrat_check.specs.Hints.{is_new};
ghost use Rattle.lrat_check.specs.LratLines.{SoFar, start_of, after_line, Says, NextProof};
ghost use Rattle.lrat_check.specs.Stored.{so_far, Holds};

use crate::follow::{Added, is_shown};
use crate::joined::write_joined;
use bee_list::Sequence;
use bee_text::next_word;
use indexmap::IndexMap;
use literal_trail::LiteralTrail;
use order_ints::{Cnf, Lit};
use proof_check::{LineHead, LineRoom, ProofTextFault};
use sat_front::is_word;
use std::alloc::{AllocError, Global};

/// A clause that was shown, and the places of the clauses that show it: those of the CNF, from 1 on, and behind them
/// the lines before this one.
#[derive(Drop)]
pub struct HintedLine {
    /// Its literals.
    pub lits: Sequence<Lit>,
    /// The places, in the order in which the clauses become unit.
    pub hints: Vec<u64>,
}

/// The clauses that a proof added so far, the hints that each of them used, and whether one of all clauses is empty.
#[derive(Drop)]
pub(crate) struct LratStore {
    added: Added,
    hints: Vec<Vec<u64>>,
    trail: LiteralTrail,
    /// Room for the words of a line.
    text: Vec<u8>,
    pub(crate) refuted: bool,
}

/// Whether a clause is empty.
fn has_empty(clauses: &[Sequence<Lit>]) -> bool
    ensures { result ≡ list_any (λ c. length c == 0) clauses.now }
{
    clauses.iter().any(|clause| clause.is_empty())
}

/// A copy of literals.
fn copied(alloc: Global, lits: &[Lit]) -> Result<Sequence<Lit>, AllocError>
    ensures { IfOk result (λ copy. copy ≡ lits.now) }
{
    Ok(Sequence::from_vec(Vec::from_slice(alloc, lits)?))
}

impl LratStore {
    /// The clauses of a CNF.
    pub(crate) fn with(alloc: Global, cnf: &Cnf) -> Result<LratStore, AllocError>
        requires few { cnf.now.vars ≤ 2 ^ 27 }
        ensures start { IfOk result (λ made. so_far made ≡ start_of cnf.now) }
        ensures holds { IfOk result (Holds cnf.now) }
    {
        let trail = LiteralTrail::with(alloc, cnf.vars)?;
        Ok(LratStore {
            added: IndexMap::new(alloc),
            hints: Vec::new(alloc),
            trail,
            text: Vec::new(alloc),
            refuted: has_empty(cnf.clauses.as_slice()),
        })
    }

    /// Whether no clause has an id.
    fn is_new(&self, cnf: &Cnf, id: u64) -> bool
        ensures { result ≡ is_new cnf.now.clauses self.now.added.entries id }
    {
        (cnf.clauses.len() as u64) < id && self.added.get(&id).is_none()
    }

    /// Adds a clause under a new id.
    fn keep(
        &mut self,
        alloc: Global,
        id: u64,
        lits: &[Lit],
        used: Vec<u64>,
    ) -> Result<(), AllocError>
        ensures added { OnOk result
            (self.new.added.entries ≡ insert_entry nat_eq self.old.added.entries id lits.now) }
        ensures refuted { OnOk result (self.new.refuted ≡ (self.old.refuted || (length lits.now == 0))) }
        ensures trail { OnOk result (self.new.trail ≡ self.old.trail) }
    {
        let clause = copied(alloc, lits)?;
        self.added.insert(id, clause)?;
        self.hints.push(used)?;
        self.refuted = self.refuted || lits.is_empty();
        Ok(())
    }

    /// Takes an addition, if it has a new id, and its hints show its clause.
    fn take_addition(
        &mut self,
        alloc: Global,
        cnf: &Cnf,
        id: u64,
        lits: &[Lit],
        hints: &[i64],
    ) -> Result<bool, AllocError>
        requires in_range { InRange cnf.now }
        requires holds { Holds cnf.now self.old }
        ensures taken { IfOk result (λ taken. MatchBool taken
            (after_line cnf.now (so_far self.old) (Add id lits.now hints.now) ≡ Some (so_far self.new))
            (after_line cnf.now (so_far self.old) (Add id lits.now hints.now) ≡ None)) }
        ensures holds { IfOk result (λ taken. IsTrue taken → Holds cnf.now self.new) }
    {
        if !self.is_new(cnf, id) {
            return Ok(false);
        }
        let mut used = Vec::new(alloc);
        if !is_shown(cnf, &self.added, &mut self.trail, lits, hints, &mut used)? {
            return Ok(false);
        }
        self.keep(alloc, id, lits, used)?;
        Ok(true)
    }

    /// Takes a line that says something, with its first word apart.
    fn take_said(
        &mut self,
        alloc: Global,
        cnf: &Cnf,
        room: &mut LineRoom,
        first: &[u8],
        behind: &[u8],
    ) -> Result<bool, AllocError>
        requires in_range { InRange cnf.now }
        requires holds { Holds cnf.now self.old }
        ensures taken { IfOk result (λ taken. MatchBool taken
            (Says cnf.now (so_far self.old) (first.now ∷ words_of behind.now) (so_far self.new))
            ((t : SoFar) → Says cnf.now (so_far self.old) (first.now ∷ words_of behind.now) t → ⊥)) }
        ensures holds { IfOk result (λ taken. IsTrue taken → Holds cnf.now self.new) }
    {
        write_joined(&mut self.text, first, behind)?;
        match room.read_bytes(self.text.as_slice()) {
            Err(ProofTextFault::Memory) => Err(AllocError),
            Err(ProofTextFault::Form(_)) => Ok(false),
            Ok(LineHead::Deletion(_)) => Ok(true),
            Ok(LineHead::Addition(id)) => {
                self.take_addition(alloc, cnf, id, &room.lits, &room.hints)
            }
        }
    }

    /// Takes a line, if it may stand next.
    pub(crate) fn take_line(
        &mut self,
        alloc: Global,
        cnf: &Cnf,
        room: &mut LineRoom,
        line: &[u8],
    ) -> Result<bool, AllocError>
        requires in_range { InRange cnf.now }
        requires holds { Holds cnf.now self.old }
        ensures taken { IfOk result (λ taken. MatchBool taken
            (NextProof cnf.now (so_far self.old) line.now (so_far self.new))
            ((t : SoFar) → NextProof cnf.now (so_far self.old) line.now t → ⊥)) }
        ensures holds { IfOk result (λ taken. IsTrue taken → Holds cnf.now self.new) }
    {
        match next_word(line) {
            None => Ok(true),
            Some((first, behind)) => {
                if is_word(first, b"c") {
                    Ok(true)
                } else {
                    self.take_said(alloc, cnf, room, first, behind)
                }
            }
        }
    }

    /// The lines, each with its hints.
    pub(crate) fn into_lines(self, alloc: Global) -> Result<Vec<HintedLine>, AllocError> {
        let LratStore { added, hints, .. } = self;
        let mut lines = Vec::with_capacity(alloc, hints.len())?;
        let mut clauses = added.into_values();
        for hints in hints {
            if let Some(lits) = clauses.next() {
                lines.push(HintedLine { lits, hints })?;
            }
        }
        Ok(lines)
    }
}
