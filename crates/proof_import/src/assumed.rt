//! A CNF with a literal that is assumed.

ghost use Rattle.std.specs.Prelude.{◌≡◌, ◌∷◌, [], Some, IfOk};
ghost use Rattle.proof_import.specs.Assumed.{with_assumed};

use bee_list::Sequence;
use order_ints::{Cnf, Lit};
use std::alloc::{AllocError, Global};

/// A clause of one literal.
fn unit(alloc: Global, l: Lit) -> Result<Sequence<Lit>, AllocError>
    ensures { IfOk result (λ clause. clause ≡ l ∷ []) }
{
    let mut lits = Vec::new(alloc);
    lits.push(l)?;
    Ok(Sequence::from_vec(lits))
}

/// A CNF, with the clause behind it that an assumed literal is.
pub(crate) fn with_assumed(alloc: Global, cnf: &Cnf, l: Lit) -> Result<Cnf, AllocError>
    ensures { IfOk result (λ whole. whole ≡ with_assumed cnf.now (Some l)) }
{
    let mut clauses = cnf.clauses.clone()?;
    let clause = unit(alloc, l)?;
    clauses.push(clause)?;
    Ok(Cnf {
        vars: cnf.vars,
        clauses,
    })
}
