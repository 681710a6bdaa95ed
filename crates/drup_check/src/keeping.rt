//! Clauses that are added to a store.

ghost use Rattle.std.specs.Prelude.{◌≡◌, ◌+◌, List, Contains, IfOk, OnErr};
ghost use Rattle.order_ints.specs.declared.literal.Lit.{Lit};
ghost use Rattle.order_ints.specs.Place.{LitBelow};
ghost use Rattle.clause_rings.specs.Clauses.{IsApart, IsComplete};
ghost use Rattle.drup_check.specs.Stored.{IsOrderedAs};
ghost use Rattle.drup_check.specs.Keeping.{IsKept};

use bee_list::Sequence;
use clause_rings::{ClauseDb, ClauseRef};
use order_ints::{Lit, ordered_clause};
use sat_front::atoms_of;
use std::alloc::{AllocError, Global};

/// What comes of a clause that is added to those of a store.
#[derive(Clone, Copy)]
pub enum Kept {
    /// It has a literal and its negation, and is not stored.
    Idle,
    /// It is stored under a reference.
    Stored(ClauseRef),
    /// It is stored under a reference, and the clauses show the empty one with it.
    Refutes(ClauseRef),
}

/// A clause with each literal once; none where it has a literal and its negation.
pub(crate) fn ordered(alloc: Global, lits: &[Lit]) -> Result<Option<Sequence<Lit>>, AllocError>
    ensures { IfOk result (IsOrderedAs lits.now) }
{
    let atoms = atoms_of(alloc, lits)?;
    ordered_clause(alloc, &[], atoms.as_slice())
}

/// Adds a clause to a store, and propagates.
fn store(db: &mut ClauseDb, lits: &[Lit], id: u64) -> Result<Kept, AllocError>
    requires bottom { db.old.trail.level ≡ 0 }
    requires lits { (l : Lit) → Contains lits.now l → LitBelow (db.old.trail.vars + 1) l }
    requires apart { IsApart lits.now }
    ensures kept { IfOk result (λ kept. IsKept kept db.old db.new lits.now) }
    ensures vars { IfOk result (λ _. db.new.trail.vars ≡ db.old.trail.vars) }
    ensures err { OnErr result (db.new ≡ db.old) }
{
    db.reserve(lits.len(), 1)?;
    let reference = db.add(lits, id);
    match db.propagate() {
        Some(_) => Ok(Kept::Refutes(reference)),
        None => Ok(Kept::Stored(reference)),
    }
}

/// Adds a clause to those of a store, under an id. A clause with a literal and its negation is not stored. Where memory
/// is wanting the store is as it was. It takes the time of one sort of the literals, and of the propagation.
pub fn keep(alloc: Global, db: &mut ClauseDb, lits: &[Lit], id: u64) -> Result<Kept, AllocError>
    requires lits { (l : Lit) → Contains lits.now l → LitBelow (db.old.trail.vars + 1) l }
    requires bottom { db.old.trail.level ≡ 0 }
    requires complete { IsComplete db.old.trail.entries db.old.clauses }
    ensures kept { IfOk result (λ kept. IsKept kept db.old db.new lits.now) }
    ensures vars { IfOk result (λ _. db.new.trail.vars ≡ db.old.trail.vars) }
    ensures err { OnErr result (db.new ≡ db.old) }
{
    match ordered(alloc, lits)? {
        None => Ok(Kept::Idle),
        Some(clause) => store(db, clause.as_slice(), id),
    }
}
