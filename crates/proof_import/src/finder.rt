//! Which clauses show each clause of a text.

ghost use Rattle.std.specs.Prelude.{◌≡◌, ◌+◌, ◌≤◌, ◌^◌, IsTrue, Contains};
ghost use Rattle.order_ints.specs.declared.literal.Lit.{Lit};
ghost use Rattle.order_ints.specs.Place.{LitBelow, InRange};
ghost use Rattle.clause_rings.specs.Clauses.{AreApartIn, IsComplete};

use crate::marks::Met;
use crate::reasons::hints_behind;
use bee_list::Sequence;
use bee_text::next_word;
use clause_rings::ClauseDb;
use drup_check::{ClauseIndex, Kept, copied, deny_all, keep, may_leave, read_clause};
use lrat_check::HintedLine;
use order_ints::{Cnf, Lit, ordered_clause};
use sat_front::{atoms_of, cut_line, is_word};
use std::alloc::{AllocError, Global};

/// A clause that was deleted, with its id.
#[derive(Drop)]
struct Gone {
    lits: Sequence<Lit>,
    id: u64,
}

/// The clauses so far, those that were deleted, and the lines that were found.
#[derive(Drop)]
struct Finder {
    db: ClauseDb,
    index: ClauseIndex,
    met: Met,
    gone: Vec<Gone>,
    lines: Vec<HintedLine>,
    last: u64,
    refuted: bool,
}

/// Whether each literal is one of so many variables.
fn are_within(vars: u32, lits: &[Lit]) -> bool
    requires { vars ≤ 2 ^ 27 }
    ensures { IsTrue result → (l : Lit) → Contains lits.now l → LitBelow (vars + 1) l }
{
    for i in 0..lits.len() {
        if lits[i].var == 0 || vars < lits[i].var {
            return false;
        }
    }
    true
}

/// Goes back to level 0. The answer says whether no clause is false there, and the literals are those of the store.
fn is_ready(db: &mut ClauseDb, lits: &[Lit]) -> bool
    ensures lits { IsTrue result → (l : Lit) → Contains lits.now l → LitBelow (db.new.trail.vars + 1) l }
    ensures bottom { IsTrue result → db.new.trail.level ≡ 0 }
    ensures complete { IsTrue result → IsComplete db.new.trail.entries db.new.clauses }
{
    db.backjump(0);
    if db.propagate().is_some() {
        return false;
    }
    let vars = db.vars();
    vars <= 134_217_728 && db.level() == 0 && are_within(vars, lits)
}

/// A clause with each literal once; none where it has a literal and its negation.
fn ordered(alloc: Global, lits: &[Lit]) -> Result<Option<Sequence<Lit>>, AllocError> {
    let atoms = atoms_of(alloc, lits)?;
    ordered_clause(alloc, &[], atoms.as_slice())
}

impl Finder {
    /// The clauses of a CNF.
    fn with(alloc: Global, cnf: &Cnf) -> Result<Finder, AllocError>
        requires few { cnf.now.vars ≤ 2 ^ 27 }
        requires in_range { InRange cnf.now }
        requires apart { AreApartIn cnf.now }
    {
        let db = ClauseDb::with(alloc, cnf)?;
        let index = ClauseIndex::of(alloc, &db)?;
        let met = Met::with(alloc, cnf.vars)?;
        Ok(Finder {
            db,
            index,
            met,
            gone: Vec::new(alloc),
            lines: Vec::new(alloc),
            last: cnf.clauses.len() as u64,
            refuted: false,
        })
    }

    /// The hints of the clause whose literals are denied.
    fn hints(&mut self, alloc: Global, lits: &[Lit]) -> Result<Vec<u64>, AllocError> {
        let conflict = self.db.propagate();
        self.met.deny(lits);
        let hints = hints_behind(alloc, &self.db, &mut self.met, lits, conflict);
        self.met.release(lits);
        hints
    }

    /// Ends with the empty clause, as a clause is false at level 0.
    fn end(&mut self, alloc: Global) -> Result<(), AllocError> {
        let hints = self.hints(alloc, &[])?;
        let lits = Sequence::from_vec(Vec::new(alloc));
        self.lines.push(HintedLine { lits, hints })?;
        self.refuted = true;
        Ok(())
    }

    /// Whether a clause is watched already, which is counted then.
    fn is_known(&mut self, alloc: Global, lits: &[Lit]) -> Result<bool, AllocError> {
        self.index.note_copy(alloc, &self.db, lits)
    }

    /// Stores a clause under an id. The answer says whether a clause is false then.
    fn store(&mut self, alloc: Global, lits: &[Lit], id: u64) -> Result<bool, AllocError> {
        if !is_ready(&mut self.db, lits) {
            return Ok(false);
        }
        match keep(alloc, &mut self.db, lits, id)? {
            Kept::Idle => Ok(false),
            Kept::Stored(c) => {
                self.index.note(lits, c)?;
                Ok(false)
            }
            Kept::Refutes(_) => Ok(true),
        }
    }

    /// Puts the clause back that was deleted last. The answer says whether there is none, or a clause is false then.
    fn put_back(&mut self, alloc: Global) -> Result<bool, AllocError> {
        let Some(clause) = self.gone.pop() else {
            return Ok(true);
        };
        if self.is_known(alloc, clause.lits.as_slice())? {
            return Ok(false);
        }
        if self.store(alloc, clause.lits.as_slice(), clause.id)? {
            self.end(alloc)?;
        }
        Ok(self.refuted)
    }

    /// Puts all deleted clauses back.
    fn bring_back(&mut self, alloc: Global) -> Result<(), AllocError> {
        for _ in 0..self.gone.len() {
            if self.put_back(alloc)? {
                break;
            }
        }
        Ok(())
    }

    /// The hints of a clause, none where the clauses that are watched don't show it.
    fn hints_for(&mut self, alloc: Global, lits: &[Lit]) -> Result<Option<Vec<u64>>, AllocError> {
        if !is_ready(&mut self.db, lits) {
            return Ok(None);
        }
        if !deny_all(&mut self.db, lits) {
            return Ok(None);
        }
        let hints = self.hints(alloc, lits)?;
        Ok(Some(hints))
    }

    /// The hints of a clause, among all clauses.
    fn all_hints(&mut self, alloc: Global, lits: &[Lit]) -> Result<Option<Vec<u64>>, AllocError> {
        match self.hints_for(alloc, lits)? {
            Some(hints) => Ok(Some(hints)),
            None => {
                self.bring_back(alloc)?;
                self.hints_for(alloc, lits)
            }
        }
    }

    /// Takes a clause, with its hints. A copy of one that is watched is only counted.
    fn add(&mut self, alloc: Global, lits: &[Lit]) -> Result<(), AllocError> {
        if self.refuted {
            return Ok(());
        }
        let Some(clause) = ordered(alloc, lits)? else {
            return Ok(());
        };
        if self.is_known(alloc, clause.as_slice())? {
            return Ok(());
        }
        let Some(hints) = self.all_hints(alloc, clause.as_slice())? else {
            return Ok(());
        };
        self.last = self.last.saturating_add(1);
        let refutes = self.store(alloc, clause.as_slice(), self.last)?;
        self.lines.push(HintedLine {
            lits: clause,
            hints,
        })?;
        if refutes {
            self.end(alloc)?;
        }
        Ok(())
    }

    /// Takes a clause with these literals out of those that are watched, where one is found and no copy of it is left.
    fn delete(&mut self, alloc: Global, lits: &[Lit]) -> Result<(), AllocError> {
        if self.refuted || !is_ready(&mut self.db, &[]) {
            return Ok(());
        }
        let Some(c) = self.index.take(lits)? else {
            return Ok(());
        };
        if may_leave(&self.db, c) {
            let lits = copied(alloc, &self.db, c)?;
            let id = self.db.id(c);
            self.gone.push(Gone { lits, id })?;
            self.db.delete(c);
        }
        Ok(())
    }

    /// Takes a line.
    fn take_line(&mut self, alloc: Global, vars: u32, line: &[u8]) -> Result<(), AllocError>
        requires { vars ≤ 2 ^ 27 }
    {
        let Some((first, behind)) = next_word(line) else {
            return Ok(());
        };
        if is_word(first, b"d") {
            if let Some(gone) = read_clause(alloc, vars, behind)? {
                self.delete(alloc, gone.as_slice())?;
            }
        } else if let Some(added) = read_clause(alloc, vars, line)? {
            self.add(alloc, added.as_slice())?;
        }
        Ok(())
    }
}

/// The clauses that a text adds, up to the empty one, each with its hints. The clauses of the CNF have the ids from 1
/// on, and those that are added the next ones.
pub(crate) fn found_lines(
    alloc: Global,
    cnf: &Cnf,
    text: &[u8],
) -> Result<Vec<HintedLine>, AllocError>
    requires few { cnf.now.vars ≤ 2 ^ 27 }
    requires in_range { InRange cnf.now }
    requires apart { AreApartIn cnf.now }
{
    let mut finder = Finder::with(alloc, cnf)?;
    if finder.db.propagate().is_some() {
        finder.end(alloc)?;
    }
    let mut rest = text;
    while let Some((line, behind)) = cut_line(rest) {
        finder.take_line(alloc, cnf.vars, line)?;
        rest = behind;
    }
    if !finder.refuted {
        finder.bring_back(alloc)?;
    }
    Ok(finder.lines)
}
