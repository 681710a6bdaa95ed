//! The clauses of a greatest member: loops along the values of one integer beside walks along others.

ghost use Rattle.std.specs.Prelude.{◌≡◌, ◌∷◌, ◌++◌, IfOk, OnOk};
ghost use Rattle.core_forms.specs.WellFormed.{IsSound, AreSound};
ghost use Rattle.direct_encode.specs.Maxima.{at_most_clauses, all_at_most_clauses, all_at, some_reaching_clauses};
ghost use Rattle.direct_encode.specs.Maxima.{max_clauses};
ghost use Rattle.direct_encode.specs.Walked.{walked};

use crate::clause::{push_clause, push_owned};
use bee_list::Sequence;
use order_ints::{Atom, OrdInt, Walk};
use std::alloc::{AllocError, Global};

#[tactic(auto, using(crate::proofs::Beside::at_most_is))]
/// Puts the clauses behind others that say: `a` is at most `c`.
fn push_at_most(clauses: &mut Vec<Sequence<Atom>>, a: &OrdInt, c: &OrdInt) -> Result<(), AllocError>
    requires a { IsSound a.now }
    requires c { IsSound c.now }
    ensures { OnOk result (clauses.new.items ≡ clauses.old.items ++ at_most_clauses a.now c.now) }
{
    let mut walk = Walk::along(c);
    for (value, atom) in a.levels() {
        push_clause(clauses, &[atom.not(), walk.at(value)])?;
    }
    Ok(())
}

/// Puts the clauses behind others that say: each member is at most `c`.
fn push_all_at_most(
    clauses: &mut Vec<Sequence<Atom>>,
    ints: &[OrdInt],
    c: &OrdInt,
) -> Result<(), AllocError>
    requires ints { AreSound ints.now }
    requires c { IsSound c.now }
    ensures { OnOk result
        (clauses.new.items ≡ clauses.old.items ++ all_at_most_clauses ints.now c.now) }
{
    let mut rest = ints;
    while let Some((a, others)) = rest.split_first() {
        push_at_most(clauses, a, c)?;
        rest = others;
    }
    Ok(())
}

/// A walk along each integer.
fn walks_along<'a>(alloc: Global, ints: &'a [OrdInt]) -> Result<Vec<Walk<'a>>, AllocError>
    requires { AreSound ints.now }
    ensures { IfOk result (λ walks. walked walks.items ≡ ints.now) }
{
    let mut walks = Vec::with_capacity(alloc, ints.len())?;
    let mut rest = ints;
    while let Some((a, others)) = rest.split_first() {
        walks.push(Walk::along(a))?;
        rest = others;
    }
    Ok(walks)
}

/// Puts behind a clause, for each walk, the atom that says that its integer is at least `v`.
fn push_reaching_atoms(
    clause: &mut Vec<Atom>,
    walks: &mut Vec<Walk<'_>>,
    v: i128,
) -> Result<(), AllocError>
    ensures atoms { OnOk result
        (clause.new.items ≡ clause.old.items ++ all_at (walked walks.old.items) v) }
    ensures same { walked walks.new.items ≡ walked walks.old.items }
{
    for i in 0..walks.len() {
        let walk = &mut walks[i];
        let atom = walk.at(v);
        clause.push(atom)?;
    }
    Ok(())
}

/// A clause: not the first atom, or the integer of some walk is at least `v`.
fn reaching_clause(
    alloc: Global,
    first: Atom,
    walks: &mut Vec<Walk<'_>>,
    v: i128,
) -> Result<Vec<Atom>, AllocError>
    ensures atoms { IfOk result
        (λ clause. clause.items ≡ first ∷ all_at (walked walks.old.items) v) }
    ensures same { walked walks.new.items ≡ walked walks.old.items }
{
    let mut clause = Vec::with_capacity(alloc, walks.len() + 1)?;
    clause.push(first)?;
    push_reaching_atoms(&mut clause, walks, v)?;
    Ok(clause)
}

#[tactic(auto, using(crate::proofs::Beside::some_reaching_is))]
/// Puts the clauses behind others that say: `c` is at most some member.
fn push_some_reaching(
    clauses: &mut Vec<Sequence<Atom>>,
    ints: &[OrdInt],
    c: &OrdInt,
) -> Result<(), AllocError>
    requires ints { AreSound ints.now }
    requires c { IsSound c.now }
    ensures { OnOk result
        (clauses.new.items ≡ clauses.old.items ++ some_reaching_clauses ints.now c.now) }
{
    let alloc = *clauses.allocator();
    let mut walks = walks_along(alloc, ints)?;
    for (value, atom) in c.levels() {
        let clause = reaching_clause(alloc, atom.not(), &mut walks, value)?;
        push_owned(clauses, clause)?;
    }
    Ok(())
}

/// Puts the clauses behind others that say: `c` is the greatest member.
pub(crate) fn push_max(
    clauses: &mut Vec<Sequence<Atom>>,
    ints: &[OrdInt],
    c: &OrdInt,
) -> Result<(), AllocError>
    requires ints { AreSound ints.now }
    requires c { IsSound c.now }
    ensures { OnOk result (clauses.new.items ≡ clauses.old.items ++ max_clauses ints.now c.now) }
{
    push_all_at_most(clauses, ints, c)?;
    push_some_reaching(clauses, ints, c)
}
