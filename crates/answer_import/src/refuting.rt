//! A refutation of clauses of which one more atom is assumed.

ghost use Rattle.std.specs.Prelude.{◌≤◌, ◌+◌, ◌^◌, IfOk, IfErr};
ghost use Rattle.order_ints.specs.OrderedClauses.{ClausesAscend};
ghost use Rattle.order_ints.specs.Place.{AtomBelow, InRange};
ghost use Rattle.objective_bound.specs.Bounds.{with_atom};
ghost use Rattle.proof_import.specs.Refutations.{IsRefutation, RefutationFaultOf};

use answer_document::with_atom;
use bee_list::Sequence;
use drup_check::DrupFault;
use order_ints::{Atom, Cnf};
use proof_check::ProofLine;
use proof_import::{check_refutation, import_refutation};
use std::alloc::Global;

/// Checks a refutation of clauses among which the empty one is, which needs no derivation.
fn refutation_of_false(
    alloc: Global,
    cnf: Cnf,
    text: &[u8],
) -> Result<Sequence<ProofLine>, DrupFault>
    requires few { cnf.vars ≤ 2 ^ 27 }
    requires in_range { InRange cnf }
    requires ascend { ClausesAscend cnf.clauses }
    ensures accepted { IfOk result (λ _. IsRefutation (with_atom cnf Atom.False) text.now) }
    ensures fault { IfErr result (RefutationFaultOf (with_atom cnf Atom.False) text.now) }
{
    let Cnf { vars, clauses } = cnf;
    let whole = Cnf {
        vars,
        clauses: with_atom(alloc, clauses, Atom::False)?,
    };
    check_refutation(alloc, &whole, text)?;
    Ok(Sequence::from_vec(Vec::new(alloc)))
}

/// The derivation from a CNF that a refutation of it and of the clause of an atom gives.
pub(crate) fn refutation(
    alloc: Global,
    cnf: Cnf,
    atom: Atom,
    text: &[u8],
) -> Result<Sequence<ProofLine>, DrupFault>
    requires few { cnf.vars ≤ 2 ^ 27 }
    requires in_range { InRange cnf }
    requires ascend { ClausesAscend cnf.clauses }
    requires below { AtomBelow (cnf.vars + 1) atom }
    ensures accepted { IfOk result (λ _. IsRefutation (with_atom cnf atom) text.now) }
    ensures fault { IfErr result (RefutationFaultOf (with_atom cnf atom) text.now) }
{
    match atom {
        Atom::True => import_refutation(alloc, &cnf, None, text),
        Atom::False => refutation_of_false(alloc, cnf, text),
        Atom::Of(literal) => import_refutation(alloc, &cnf, Some(literal), text),
    }
}
