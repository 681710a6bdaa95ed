//! The checker of proofs: it takes line by line, and keeps nothing of a line but its clause.

ghost use Rattle.std.specs.Prelude.{◌≡◌, ◌≤◌, ◌+◌, ◌^◌, ℕ, None, length, Ok, IfOk, IfErr, OnOk};
ghost use Rattle.std.specs.Prelude.{OnErr};
ghost use Rattle.order_ints.specs.Place.{InRange, ClausesBelow};
ghost use Rattle.proof_check.specs.declared.line.ProofLine.TheVariants.{Add, Delete};
ghost use Rattle.proof_check.specs.Named.{numbered, literals_of};
ghost use Rattle.proof_check.specs.Values.{no_values};
ghost use Rattle.proof_check.specs.Faults.{deletion_fault, body_fault};
ghost use Rattle.proof_check.specs.Lrat.{proof_of, addition_fault, line_fault, take_line};
ghost use Rattle.proof_check.specs.Known as known;
ghost use Rattle.proof_check.specs.Assigned.{value_at};
ghost use Rattle.proof_check.specs.Arena.{clauses_in, live_in, all_live};
ghost use Rattle.proof_check.specs.Checking.{IsFault};
ghost use Rattle.proof_check.specs.Room.{line_in};

use crate::arena::Arena;
use crate::deletion::delete;
use crate::fault::{ProofFault, TakeFault};
use crate::hints::{deny, follow};
use crate::line::ProofLine;
use crate::read::{LineHead, LineRoom};
use crate::values::Values;
use bee_list::Sequence;
use order_ints::{Cnf, Lit};
use std::alloc::{AllocError, Global};
use std::marker::Model;

/// A checker of Lrat proofs from a CNF. A clause sees it as the proof so far: the CNF, the clauses that live under
/// their ids, those that were ever added with their ids, and the last id. It takes four bytes a literal and 24 a clause
/// beside the CNF, and six a variable.
#[derive(Drop)]
pub struct Checker {
    vars: u32,
    /// How many of the clauses are those of the CNF.
    given: usize,
    arena: Arena,
    values: Values,
}

impl Model for Checker {
    ghost use Rattle.proof_check.specs.Lrat.{Proof};
    ghost use Rattle.proof_check.specs.Checking.{proof_in, IsChecker};

    ghost Value = { Proof };

    ghost view = { λ s. proof_in s.vars s.given s.arena };

    ghost invariant = { λ s. IsChecker s.vars s.given s.arena s.values };
}

/// Puts the clauses of a CNF into an arena, under the ids from 1 on.
fn clauses_of(alloc: Global, clauses: &[Sequence<Lit>]) -> Result<Arena, AllocError>
    requires { ClausesBelow (2 ^ 27 + 1) clauses.now }
    ensures { IfOk result (λ arena. arena ≡ all_live (numbered 1 clauses.now)) }
{
    let mut arena = Arena::new(alloc);
    for (i, clause) in clauses.iter().enumerate() {
        arena.push(i as u64 + 1, clause.as_slice())?;
    }
    Ok(arena)
}

/// Tests an addition's literals and hints, from no values on.
fn test_addition(
    arena: &Arena,
    values: &mut Values,
    vars: u32,
    lits: &[Lit],
    hints: &[i64],
) -> Result<(), TakeFault>
    requires size { length values.old ≡ vars + 1 }
    requires free { value_at values.old ≡ no_values }
    requires below { ClausesBelow (vars + 1) (literals_of (clauses_in arena.now)) }
    ensures size { length values.new ≡ length values.old }
    ensures ok { OnOk result (body_fault vars (live_in arena.now) lits.now hints.now ≡ None) }
    ensures fault { IfErr result (λ e. IsFault e (body_fault vars (live_in arena.now) lits.now hints.now)) }
{
    match deny(values, vars, lits) {
        Err(e) => return Err(e),
        Ok(()) => {}
    }
    match follow(arena, values, hints) {
        Err(e) => Err(e),
        Ok(()) => Ok(()),
    }
}

impl Checker {
    /// The checker before the first line. It takes the time of a copy of the CNF.
    pub fn with(alloc: Global, cnf: &Cnf) -> Result<Checker, AllocError>
        requires small { cnf.now.vars ≤ 2 ^ 27 }
        requires in_range { InRange cnf.now }
        ensures { IfOk result (λ checker. checker ≡ proof_of cnf.now) }
    {
        let arena = clauses_of(alloc, cnf.clauses.as_slice())?;
        let values = Values::with(alloc, cnf.vars)?;
        Ok(Checker {
            vars: cnf.vars,
            given: arena.len(),
            arena,
            values,
        })
    }

    /// Takes the next line. It looks at the clause's literals and at those of the clauses that the hints name, each
    /// once, and finds these by halving. Where the line has a fault, and where memory is wanting, nothing is changed.
    pub fn take(&mut self, line: &ProofLine) -> Result<(), TakeFault>
        ensures taken { OnOk result (take_line self.old line.now ≡ Ok self.new) }
        ensures refused { OnErr result (self.new ≡ self.old) }
        ensures fault { IfErr result (λ e. IsFault e (line_fault self.old line.now)) }
    {
        match line {
            ProofLine::Add { id, lits, hints } => {
                self.take_addition(*id, lits.as_slice(), hints.as_slice())
            }
            ProofLine::Delete { at: _, ids } => self.take_deletion(ids.as_slice()),
        }
    }

    /// Takes an addition whose literals and hints are lent.
    pub fn take_addition(&mut self, id: u64, lits: &[Lit], hints: &[i64]) -> Result<(), TakeFault>
        ensures taken { OnOk result (take_line self.old (Add id lits.now hints.now) ≡ Ok self.new) }
        ensures refused { OnErr result (self.new ≡ self.old) }
        ensures fault { IfErr result (λ e. IsFault e (addition_fault self.old id lits.now hints.now)) }
    {
        if id <= self.arena.last_id() {
            return Err(TakeFault::Proof(ProofFault::Id));
        }
        let tested = test_addition(&self.arena, &mut self.values, self.vars, lits, hints);
        self.values.clear();
        match tested {
            Err(e) => Err(e),
            Ok(()) => match self.arena.push(id, lits) {
                Err(_) => Err(TakeFault::Memory),
                Ok(()) => Ok(()),
            },
        }
    }

    /// Takes a deletion whose ids are lent.
    pub fn take_deletion(&mut self, ids: &[u64]) -> Result<(), TakeFault>
        ensures taken { OnOk result ((at : ℕ) → take_line self.old (Delete at ids.now) ≡ Ok self.new) }
        ensures refused { OnErr result (self.new ≡ self.old) }
        ensures fault { IfErr result (λ e. IsFault e (deletion_fault self.old.live ids.now)) }
    {
        match delete(&mut self.arena, ids) {
            Err(id) => Err(TakeFault::Proof(ProofFault::Absent(id))),
            Ok(()) => Ok(()),
        }
    }

    /// Takes a line that was read into room.
    pub fn take_read(&mut self, head: LineHead, room: &LineRoom) -> Result<(), TakeFault>
        ensures taken { OnOk result (take_line self.old (line_in head room.now) ≡ Ok self.new) }
        ensures refused { OnErr result (self.new ≡ self.old) }
        ensures fault { IfErr result (λ e. IsFault e (line_fault self.old (line_in head room.now))) }
    {
        match head {
            LineHead::Addition(id) => self.take_addition(id, &room.lits, &room.hints),
            LineHead::Deletion(_) => self.take_deletion(&room.ids),
        }
    }

    /// How many clauses were added, also those that were deleted since.
    pub fn added(&self) -> u64
        ensures { result ≡ length self.now.added }
    {
        (self.arena.len() - self.given) as u64
    }

    /// The greatest id so far.
    pub fn last_id(&self) -> u64
        ensures { result ≡ self.now.last }
    {
        self.arena.last_id()
    }

    /// Whether the clause with exactly these literals, in any order, is one of the CNF or was ever added. It takes no
    /// memory; each clause is looked at up to its first literal that isn't one of these.
    pub fn known(&self, lits: &[Lit]) -> bool
        ensures { result ≡ known.known self.now lits.now }
    {
        self.arena.has_clause(lits)
    }
}
