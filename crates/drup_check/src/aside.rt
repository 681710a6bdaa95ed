//! Clauses that leave the store.

ghost use Rattle.std.specs.Prelude.{◌≡◌, ◌↔◌, IfOk, IsTrue};
ghost use Rattle.clause_arena.specs.Clauses.{IsLive, lits_of};
ghost use Rattle.clause_rings.specs.Clauses.{IsUnused};

use bee_list::Sequence;
use clause_rings::{ClauseDb, ClauseRef};
use order_ints::Lit;
use std::alloc::{AllocError, Global};

/// Whether a clause is there, and no literal is true for it. It looks at each literal of the clause.
pub fn may_leave(db: &ClauseDb, c: ClauseRef) -> bool
    ensures { IsTrue result ↔ (IsLive db.now.clauses c × IsUnused db.now.trail.entries c) }
{
    db.is_live(c) && db.is_unused(c)
}

/// The literals of a clause.
pub fn copied(alloc: Global, db: &ClauseDb, c: ClauseRef) -> Result<Sequence<Lit>, AllocError>
    requires { IsLive db.now.clauses c }
    ensures { IfOk result (λ lits. lits ≡ lits_of db.now.clauses c) }
{
    let mut lits = Vec::new(alloc);
    for place in 0..db.len(c) {
        lits.push(db.lit_at(c, place))?;
    }
    Ok(Sequence::from_vec(lits))
}
