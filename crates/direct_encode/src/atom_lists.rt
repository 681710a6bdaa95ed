//! The clauses of the forms over lists of atoms.

ghost use Rattle.std.specs.Prelude.{◌≡◌, ◌≤◌, ◌∷◌, [], ◌++◌, OnOk, IfOk, length, map};
ghost use Rattle.std.specs.Prelude.{if◌then◌else◌};
ghost use Rattle.order_ints.specs.Truth.{not_atom};
ghost use Rattle.direct_encode.specs.AtomLists.{parity_clauses, member_clauses, conj_clauses, comp_clauses};
ghost use Rattle.direct_encode.specs.AtomLists.{apart_clauses, amo_clauses};

use crate::clause::{push_clause, push_owned};
use bee_list::Sequence;
use order_ints::Atom;
use std::alloc::{AllocError, Global};

/// An atom, or its negation.
fn signed(atom: Atom, positive: bool) -> Atom
    ensures { result ≡ (if positive then atom else not_atom atom) }
{
    if positive { atom } else { atom.not() }
}

/// Puts the clauses of two members behind others, which say that an odd number of them is true, or an
/// even one.
fn push_parity_of_two(
    clauses: &mut Vec<Sequence<Atom>>,
    a: Atom,
    b: Atom,
    odd: bool,
) -> Result<(), AllocError>
    ensures { OnOk result
        (clauses.new.items ≡ clauses.old.items ++ parity_clauses (a ∷ b ∷ []) odd) }
{
    push_clause(clauses, &[a, signed(b, odd)])?;
    push_clause(clauses, &[a.not(), signed(b, !odd)])
}

/// Puts the clauses of three members behind others.
fn push_parity_of_three(
    clauses: &mut Vec<Sequence<Atom>>,
    a: Atom,
    b: Atom,
    c: Atom,
    odd: bool,
) -> Result<(), AllocError>
    ensures { OnOk result
        (clauses.new.items ≡ clauses.old.items ++ parity_clauses (a ∷ b ∷ c ∷ []) odd) }
{
    push_clause(clauses, &[a, b, signed(c, odd)])?;
    push_clause(clauses, &[a, b.not(), signed(c, !odd)])?;
    push_clause(clauses, &[a.not(), b, signed(c, !odd)])?;
    push_clause(clauses, &[a.not(), b.not(), signed(c, odd)])
}

/// Puts the clauses behind others that say that an odd number of at most three members is true, or an
/// even one.
pub(crate) fn push_parity(
    clauses: &mut Vec<Sequence<Atom>>,
    atoms: &[Atom],
    odd: bool,
) -> Result<(), AllocError>
    requires { length atoms.now ≤ 3 }
    ensures { OnOk result (clauses.new.items ≡ clauses.old.items ++ parity_clauses atoms.now odd) }
{
    let Some((first, others)) = atoms.split_first() else {
        return if odd {
            push_clause(clauses, &[])
        } else {
            Ok(())
        };
    };
    let Some((second, others)) = others.split_first() else {
        return push_clause(clauses, &[signed(*first, odd)]);
    };
    let Some((third, _)) = others.split_first() else {
        return push_parity_of_two(clauses, *first, *second, odd);
    };
    push_parity_of_three(clauses, *first, *second, *third, odd)
}

/// Puts the clauses behind others that say: where `r` is true each member is.
fn push_members(
    clauses: &mut Vec<Sequence<Atom>>,
    r: Atom,
    atoms: &[Atom],
) -> Result<(), AllocError>
    ensures { OnOk result (clauses.new.items ≡ clauses.old.items ++ member_clauses r atoms.now) }
{
    for atom in atoms {
        push_clause(clauses, &[r.not(), *atom])?;
    }
    Ok(())
}

/// An atom, and the negations of others behind it.
fn negations(alloc: Global, first: Atom, atoms: &[Atom]) -> Result<Vec<Atom>, AllocError>
    ensures { IfOk result (λ clause. clause.items ≡ first ∷ map not_atom atoms.now) }
{
    let mut clause = Vec::with_capacity(alloc, atoms.len() + 1)?;
    clause.push(first)?;
    for atom in atoms {
        clause.push(atom.not())?;
    }
    Ok(clause)
}

/// Puts the clauses behind others that say: `r` is true exactly where all members are.
pub(crate) fn push_conj(
    clauses: &mut Vec<Sequence<Atom>>,
    r: Atom,
    atoms: &[Atom],
) -> Result<(), AllocError>
    ensures { OnOk result (clauses.new.items ≡ clauses.old.items ++ conj_clauses r atoms.now) }
{
    push_members(clauses, r, atoms)?;
    let alloc = *clauses.allocator();
    push_owned(clauses, negations(alloc, r, atoms)?)
}

/// Puts the clauses behind others that say: `hi` is `a` or `b`, and `lo` is `a` and `b`.
pub(crate) fn push_comp(
    clauses: &mut Vec<Sequence<Atom>>,
    a: Atom,
    b: Atom,
    hi: Atom,
    lo: Atom,
) -> Result<(), AllocError>
    ensures { OnOk result (clauses.new.items ≡ clauses.old.items ++ comp_clauses a b hi lo) }
{
    push_clause(clauses, &[a.not(), hi])?;
    push_clause(clauses, &[b.not(), hi])?;
    push_clause(clauses, &[hi.not(), a, b])?;
    push_clause(clauses, &[lo.not(), a])?;
    push_clause(clauses, &[lo.not(), b])?;
    push_clause(clauses, &[lo, a.not(), b.not()])
}

/// Puts the clauses behind others that say of one atom and each of others: not both are true.
fn push_apart(
    clauses: &mut Vec<Sequence<Atom>>,
    first: Atom,
    others: &[Atom],
) -> Result<(), AllocError>
    ensures { OnOk result (clauses.new.items ≡ clauses.old.items ++ apart_clauses first others.now) }
{
    for other in others {
        push_clause(clauses, &[first.not(), other.not()])?;
    }
    Ok(())
}

/// Puts the clauses behind others that say: at most one member is true.
pub(crate) fn push_amo(clauses: &mut Vec<Sequence<Atom>>, atoms: &[Atom]) -> Result<(), AllocError>
    ensures { OnOk result (clauses.new.items ≡ clauses.old.items ++ amo_clauses atoms.now) }
{
    let mut rest = atoms;
    while let Some((first, others)) = rest.split_first() {
        push_apart(clauses, *first, others)?;
        rest = others;
    }
    Ok(())
}
