//! Hints without those that tell nothing.
//!
//! Where the negation of an assumed literal joins a clause, the literal is true once the clause is denied. A hint whose
//! clause told that literal, or holds it, then tells nothing, which the checker refuses; and a clause that holds both is
//! true whatever the values, so that no line needs it.

use bee_list::Sequence;
use order_ints::{Cnf, Lit};
use proof_check::ProofLine;
use std::alloc::{AllocError, Global};

/// What a clause tells under truth values.
#[derive(Clone, Copy)]
enum Tells {
    /// It is false.
    Refuted,
    /// This literal is true.
    Unit(Lit),
    /// Nothing.
    Nothing,
}

/// Truth values of variables, and which have one.
#[derive(Drop)]
struct Told {
    values: Vec<Option<bool>>,
    set: Vec<u32>,
}

impl Told {
    /// No value, of so many variables.
    fn with(alloc: Global, vars: u32) -> Result<Told, AllocError> {
        let values = vec![in alloc; None; (vars as usize).saturating_add(1)]?;
        Ok(Told {
            values,
            set: Vec::new(alloc),
        })
    }

    /// The truth value of a literal.
    fn truth(&self, l: Lit) -> Option<bool> {
        let value = self.values.get(l.var as usize)?;
        value.map(|value| value == l.positive)
    }

    /// Makes a literal true.
    fn make_true(&mut self, l: Lit) -> Result<(), AllocError> {
        self.set.push(l.var)?;
        if let Some(value) = self.values.get_mut(l.var as usize) {
            *value = Some(l.positive);
        }
        Ok(())
    }

    /// Makes each literal of a clause false. The answer is whether that can be.
    fn deny(&mut self, lits: &[Lit]) -> Result<bool, AllocError> {
        for l in lits {
            if self.truth(*l) == Some(true) {
                return Ok(false);
            }
            self.make_true(l.negated())?;
        }
        Ok(true)
    }

    /// Takes all values back.
    fn clear(&mut self) {
        for var in &self.set {
            if let Some(value) = self.values.get_mut(*var as usize) {
                *value = None;
            }
        }
        self.set.clear();
    }

    /// What a clause tells.
    fn tells(&self, lits: &[Lit]) -> Tells {
        let mut open = None;
        for l in lits {
            match self.truth(*l) {
                Some(false) => {}
                Some(true) => return Tells::Nothing,
                None if open.is_some() => return Tells::Nothing,
                None => open = Some(*l),
            }
        }
        match open {
            None => Tells::Refuted,
            Some(l) => Tells::Unit(l),
        }
    }
}

/// The clauses that hints name: those of a CNF, and behind them those of lines, each with the next id.
#[derive(Clone, Copy)]
struct Clauses<'a> {
    given: &'a [Sequence<Lit>],
    lines: &'a [ProofLine],
}

impl<'a> Clauses<'a> {
    /// The clause of an id, counted from 1.
    fn clause(self, id: u64) -> Option<&'a [Lit]> {
        let place = usize::try_from(id).ok()?.checked_sub(1)?;
        if let Some(clause) = self.given.get(place) {
            return Some(clause.as_slice());
        }
        match self.lines.get(place.checked_sub(self.given.len())?)? {
            ProofLine::Add { lits, .. } => Some(lits.as_slice()),
            ProofLine::Delete { .. } => None,
        }
    }

    /// The hints that tell something where a clause is denied, up to the first one whose clause is false.
    fn telling(
        self,
        alloc: Global,
        told: &mut Told,
        hints: &[i64],
    ) -> Result<Sequence<i64>, AllocError> {
        let mut out = Vec::new(alloc);
        for hint in hints {
            let Some(lits) = self.clause(hint.unsigned_abs()) else {
                continue;
            };
            match told.tells(lits) {
                Tells::Nothing => {}
                Tells::Unit(l) => {
                    out.push(*hint)?;
                    told.make_true(l)?;
                }
                Tells::Refuted => {
                    out.push(*hint)?;
                    break;
                }
            }
        }
        Ok(Sequence::from_vec(out))
    }

    /// A line with the hints that tell something, none where its clause is true whatever the values.
    fn retold(
        self,
        alloc: Global,
        told: &mut Told,
        line: &ProofLine,
    ) -> Result<Option<ProofLine>, AllocError> {
        let ProofLine::Add { id, lits, hints } = line else {
            return Ok(None);
        };
        told.clear();
        if !told.deny(lits.as_slice())? {
            return Ok(None);
        }
        let mut copied = Vec::with_capacity(alloc, lits.len())?;
        copied.extend_from_slice(lits.as_slice())?;
        let hints = self.telling(alloc, told, hints.as_slice())?;
        Ok(Some(ProofLine::Add {
            id: *id,
            lits: Sequence::from_vec(copied),
            hints,
        }))
    }
}

/// Lines that add clauses, with ids behind those of a CNF, without hints that tell nothing and without clauses that are
/// true whatever the values. It takes the time of the clauses that the hints name.
pub(crate) fn telling_lines(
    alloc: Global,
    cnf: &Cnf,
    lines: &[ProofLine],
) -> Result<Sequence<ProofLine>, AllocError> {
    let clauses = Clauses {
        given: cnf.clauses.as_slice(),
        lines,
    };
    let mut told = Told::with(alloc, cnf.vars)?;
    let mut out = Vec::with_capacity(alloc, lines.len())?;
    for line in lines {
        if let Some(line) = clauses.retold(alloc, &mut told, line)? {
            out.push(line)?;
        }
    }
    Ok(Sequence::from_vec(out))
}
