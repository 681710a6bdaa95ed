//! Each clause once.

ghost use Rattle.std.specs.Prelude.{◌≡◌, IfOk, map};
ghost use Rattle.order_ints.specs.OrderedClauses.{distinct};

use crate::hash::ClauseHasher;
use bee_list::Sequence;
use indexmap::IndexSet;
use order_ints::Lit;
use std::alloc::{AllocError, Global};
use std::hash::BuildHasherDefault;

/// Clauses in the order in which they came, each once.
type ClauseSet = IndexSet<Vec<Lit>, BuildHasherDefault<ClauseHasher>>;

/// The clauses as a set.
fn set_of(alloc: Global, clauses: Vec<Sequence<Lit>>) -> Result<ClauseSet, AllocError>
    ensures { IfOk result (λ set. map (λ v. v.items) set.keys ≡ distinct clauses.items) }
{
    let mut set = IndexSet::with_capacity_and_hasher(
        alloc,
        clauses.len(),
        BuildHasherDefault::new(),
    )?;
    for clause in clauses {
        set.insert(clause.into_vec())?;
    }
    Ok(set)
}

/// The clauses of a set, in its order.
fn clauses_of(alloc: Global, set: ClauseSet) -> Result<Sequence<Sequence<Lit>>, AllocError>
    ensures { IfOk result (λ clauses. clauses ≡ map (λ v. v.items) set.keys) }
{
    let mut clauses = Vec::with_capacity(alloc, set.len())?;
    for literals in set {
        clauses.push(Sequence::from_vec(literals))?;
    }
    Ok(Sequence::from_vec(clauses))
}

/// The clauses, each where it stands first.
pub fn distinct_clauses(
    alloc: Global,
    clauses: Vec<Sequence<Lit>>,
) -> Result<Sequence<Sequence<Lit>>, AllocError>
    ensures { IfOk result (λ kept. kept ≡ distinct clauses.items) }
{
    let set = set_of(alloc, clauses)?;
    clauses_of(alloc, set)
}
