//! A clause that is about to be added: made whole, and its room taken, before the search changes anything.

ghost use Rattle.std.specs.Prelude.{◌≡◌, ◌<◌, map, pos, length, IfOk, FitsSigned};
ghost use Rattle.std.specs.Int.{w64};
ghost use Rattle.proof_check.specs.Lines.{Each};
ghost use Rattle.clause_arena.specs.Clauses.{lit_in};

use bee_list::Sequence;
use order_ints::Lit;
use std::alloc::{AllocError, Global};

/// A clause, its id and its hints.
#[derive(Drop)]
pub struct Lesson {
    /// The id.
    pub id: u64,
    /// The literals.
    pub lits: Sequence<Lit>,
    /// The ids of the clauses that it follows from.
    pub hints: Sequence<i64>,
}

impl Lesson {
    /// The first literal.
    pub fn first(&self) -> Lit
        requires { 0 < length self.now.lits }
        ensures { result ≡ lit_in self.now.lits 0 }
    {
        let lits = self.lits.as_slice();
        lits[0]
    }
}

/// Ids with a sign; past 63 bits there is none.
pub fn signed_ids(alloc: Global, ids: &[u64]) -> Result<Sequence<i64>, AllocError>
    ensures same { IfOk result (λ signed. signed ≡ map pos ids.now) }
    ensures fits { IfOk result (Each (FitsSigned w64)) }
{
    let mut signed = Vec::with_capacity(alloc, ids.len())?;
    for id in ids {
        let Ok(id) = i64::try_from(*id) else {
            return Err(AllocError);
        };
        signed.push(id)?;
    }
    Ok(Sequence::from_vec(signed))
}

/// A list of literals.
pub fn owned_lits(alloc: Global, lits: &[Lit]) -> Result<Sequence<Lit>, AllocError>
    ensures { IfOk result (λ owned. owned ≡ lits.now) }
{
    Ok(Sequence::from_vec(Vec::from_slice(alloc, lits)?))
}
