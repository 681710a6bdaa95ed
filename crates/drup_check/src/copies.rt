//! Clauses that have the literals of others.

ghost use Rattle.std.specs.Prelude.{IfOk, IsTrue};
ghost use Rattle.drup_check.specs.Stored.{IsStored, IsOrderedAs};
ghost use Rattle.clause_arena.specs.Clauses.{IsLive, lits_of};

use crate::aside::copied;
use crate::keeping::ordered;
use bee_list::Sequence;
use clause_rings::{ClauseDb, ClauseRef};
use order_ints::Lit;
use std::alloc::{AllocError, Global};

/// A clause that is there, with each literal once; none where it has a literal and its negation.
fn ordered_at(
    alloc: Global,
    db: &ClauseDb,
    c: ClauseRef,
) -> Result<Option<Sequence<Lit>>, AllocError>
    requires { IsLive db.now.clauses c }
    ensures { IfOk result (IsOrderedAs (lits_of db.now.clauses c)) }
{
    let lits = copied(alloc, db, c)?;
    ordered(alloc, lits.as_slice())
}

/// Whether a clause is there and has these literals, in any order.
pub(crate) fn is_copy(
    alloc: Global,
    db: &ClauseDb,
    c: ClauseRef,
    lits: &[Lit],
) -> Result<bool, AllocError>
    ensures { IfOk result (λ is. IsTrue is → IsStored db.now.clauses lits.now) }
{
    if !db.is_live(c) {
        return Ok(false);
    }
    let Some(one) = ordered_at(alloc, db, c)? else {
        return Ok(false);
    };
    let Some(other) = ordered(alloc, lits)? else {
        return Ok(false);
    };
    Ok(one == other)
}
