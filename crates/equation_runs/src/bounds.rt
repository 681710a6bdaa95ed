//! The equations that say what the others leave a member, or that each member is True or False.

ghost use Rattle.std.specs.Prelude.{◌≡◌, ◌+◌, ◌^◌, ◌<◌, ◌++◌, ◌∷◌, [], map, pos, ◌+ℤ◌, ◌-ℤ◌, unsigned_abs, IfOk, OnOk};
ghost use Rattle.order_ints.specs.OrderRange.{IsBounded, low_of, high_of};
ghost use Rattle.order_ints.specs.OrderLevels.{at_of};
ghost use Rattle.core_forms.specs.WellFormed.{IsWellFormed, AreSound, abs_total};
ghost use Rattle.core_forms.specs.declared.equation.Rule.TheVariants.{Form};
ghost use Rattle.core_forms.specs.declared.form.Core.TheVariants.{Conj, Sum, Max};
ghost use Rattle.order_ints.specs.declared.atom.Atom.TheVariants.{True, False};
ghost use Rattle.rule_base.specs.Pairs.{only_if};
ghost use Rattle.rule_base.specs.Stated.{all_equal};
ghost use Rattle.equation_runs.specs.FreeAtoms.{are_free};
ghost use Rattle.equation_runs.specs.RunRows.{equation_of};
ghost use Rattle.equation_runs.specs.BoundRows.{literals, lower_atoms, upper_atoms, free_bound, ints_bound};
ghost use Rattle.equation_runs.specs.BoundRows.{members_bound, count_bounds, bound_pairs};

use crate::free::{are_all_free, are_free, are_free_beside, are_ints_free};
use crate::links::push_pair;
use crate::opposites::push_twins;
use arith_rules::{Range, totals_of};
use core_forms::{Core, Equation, Summands};
use order_ints::{Atom, OrdInt};
use rule_base::next;
use std::alloc::{AllocError, Global};

/// Adds that each atom is a constant.
fn push_all(run: &mut Vec<Equation>, atoms: &[Atom], constant: Atom) -> Result<(), AllocError>
    ensures { OnOk result (run.new.items
        ≡ run.old.items ++ map (equation_of Form) (all_equal atoms.now constant)) }
{
    for atom in atoms {
        push_pair(run, *atom, constant)?;
    }
    Ok(())
}

/// Adds that each member is true, where they are literals of different variables.
fn push_conjuncts(alloc: Global, run: &mut Vec<Equation>, atoms: &[Atom]) -> Result<(), AllocError>
    ensures { OnOk result (run.new.items
        ≡ run.old.items ++ map (equation_of Form) (only_if (are_free atoms.now) (all_equal atoms.now True))) }
{
    if are_free(alloc, atoms)? {
        push_all(run, atoms, Atom::True)?;
    }
    Ok(())
}

/// Adds those of a conjunction that is true.
fn push_conj(
    alloc: Global,
    run: &mut Vec<Equation>,
    r: Atom,
    atoms: &[Atom],
) -> Result<(), AllocError>
    ensures { OnOk result (run.new.items
        ≡ run.old.items ++ map (equation_of Form) (bound_pairs (Conj r atoms.now))) }
{
    if r.is_true() {
        push_conjuncts(alloc, run, atoms)?;
    }
    Ok(())
}

/// Adds that each member is a constant, where these and the atoms of `c` are literals of different variables.
fn push_members(
    alloc: Global,
    run: &mut Vec<Equation>,
    atoms: &[Atom],
    c: &OrdInt,
    constant: Atom,
) -> Result<(), AllocError>
    ensures { OnOk result (run.new.items
        ≡ run.old.items ++ map (equation_of Form) (members_bound atoms.now c.now constant)) }
{
    if are_free_beside(alloc, atoms, c)? {
        push_all(run, atoms, constant)?;
    }
    Ok(())
}

/// Adds that each member is true where the count is as great as can be, and that each is false where it is 0.
fn push_count(
    alloc: Global,
    run: &mut Vec<Equation>,
    atoms: &[Atom],
    c: &OrdInt,
) -> Result<(), AllocError>
    requires { IsBounded c.now }
    ensures { OnOk result (run.new.items
        ≡ run.old.items ++ map (equation_of Form) (count_bounds atoms.now c.now)) }
{
    let range = Range::of(c);
    if range.begins_at(atoms.len()) {
        push_members(alloc, run, atoms, c, Atom::True)?;
    } else if range.ends_at_zero() {
        push_members(alloc, run, atoms, c, Atom::False)?;
    }
    Ok(())
}

/// Adds that each of some atoms is a constant, where those of integers are literals of different variables.
fn push_ints(
    alloc: Global,
    run: &mut Vec<Equation>,
    ints: &[OrdInt],
    atoms: &[Atom],
    constant: Atom,
) -> Result<(), AllocError>
    ensures { OnOk result (run.new.items
        ≡ run.old.items ++ map (equation_of Form) (free_bound ints.now atoms.now constant)) }
{
    if are_ints_free(alloc, ints)? {
        push_all(run, atoms, constant)?;
    }
    Ok(())
}

/// Adds an atom where it is a literal.
fn push_literal(found: &mut Vec<Atom>, atom: Atom) -> Result<(), AllocError>
    ensures { OnOk result (found.new.items ≡ found.old.items ++ literals (atom ∷ [])) }
{
    if let Atom::Of(_) = atom {
        found.push(atom)?;
    }
    Ok(())
}

/// That a member is at least what the greatest values of the others leave it.
fn lower_atom(a: &OrdInt, all: &Range, k: &i128) -> Atom
    requires a { IsBounded a.now }
    requires all { (unsigned_abs all.now.low < 2 ^ 100) × (unsigned_abs all.now.high < 2 ^ 100) }
    requires k { unsigned_abs k.now < 2 ^ 100 }
    ensures { result ≡ at_of a.now (k.now -ℤ (all.now.high -ℤ high_of a.now)) }
{
    let own = Range::of(a);
    let share = own.share(all, k);
    a.at(share.low)
}

/// That a member is more than what the least values of the others leave it.
fn upper_atom(a: &OrdInt, all: &Range, k: &i128) -> Atom
    requires a { IsBounded a.now }
    requires all { (unsigned_abs all.now.low < 2 ^ 100) × (unsigned_abs all.now.high < 2 ^ 100) }
    requires k { unsigned_abs k.now < 2 ^ 100 }
    ensures { result ≡ at_of a.now (k.now -ℤ (all.now.low -ℤ low_of a.now) +ℤ pos 1) }
{
    let own = Range::of(a);
    let share = own.share(all, k);
    let beyond = next(share.high);
    a.at(beyond)
}

/// The literals that say that the members are at least what the others leave them.
#[tactic(auto, using(crate::proofs::BoundSteps::literals_more))]
fn lower_literals(
    alloc: Global,
    ints: &[OrdInt],
    all: &Range,
    k: &i128,
) -> Result<Vec<Atom>, AllocError>
    requires ints { AreSound ints.now }
    requires all { (unsigned_abs all.now.low < 2 ^ 100) × (unsigned_abs all.now.high < 2 ^ 100) }
    requires k { unsigned_abs k.now < 2 ^ 100 }
    ensures { IfOk result (λ found. found.items ≡ literals (lower_atoms k.now all.now.high ints.now)) }
{
    let mut found = Vec::new(alloc);
    for a in ints {
        push_literal(&mut found, lower_atom(a, all, k))?;
    }
    Ok(found)
}

/// The literals that say that the members are more than what the others leave them.
#[tactic(auto, using(crate::proofs::BoundSteps::literals_more))]
fn upper_literals(
    alloc: Global,
    ints: &[OrdInt],
    all: &Range,
    k: &i128,
) -> Result<Vec<Atom>, AllocError>
    requires ints { AreSound ints.now }
    requires all { (unsigned_abs all.now.low < 2 ^ 100) × (unsigned_abs all.now.high < 2 ^ 100) }
    requires k { unsigned_abs k.now < 2 ^ 100 }
    ensures { IfOk result (λ found. found.items ≡ literals (upper_atoms k.now all.now.low ints.now)) }
{
    let mut found = Vec::new(alloc);
    for a in ints {
        push_literal(&mut found, upper_atom(a, all, k))?;
    }
    Ok(found)
}

/// Adds that no member of a sum is more than what the least values of the others leave it.
fn push_upper(
    alloc: Global,
    run: &mut Vec<Equation>,
    ints: &[OrdInt],
    all: &Range,
    k: &i128,
) -> Result<(), AllocError>
    requires ints { AreSound ints.now }
    requires all { (unsigned_abs all.now.low < 2 ^ 100) × (unsigned_abs all.now.high < 2 ^ 100) }
    requires k { unsigned_abs k.now < 2 ^ 100 }
    ensures { OnOk result (run.new.items
        ≡ run.old.items
        ++ map (equation_of Form) (ints_bound ints.now (literals (upper_atoms k.now all.now.low ints.now)) False)) }
{
    let upper = upper_literals(alloc, ints, all, k)?;
    if !upper.is_empty() {
        push_ints(alloc, run, ints, upper.as_slice(), Atom::False)?;
    }
    Ok(())
}

/// Adds what the others leave each member of a sum.
fn push_sum(
    alloc: Global,
    run: &mut Vec<Equation>,
    ints: &Summands,
    k: &i128,
) -> Result<(), AllocError>
    requires ints { AreSound ints.now }
    requires small { abs_total ints.now + unsigned_abs k.now < 2 ^ 100 }
    ensures { OnOk result (run.new.items
        ≡ run.old.items ++ map (equation_of Form) (bound_pairs (Sum ints.now k.now))) }
{
    let members = ints.as_slice();
    let all = totals_of(ints);
    let lower = lower_literals(alloc, members, &all, k)?;
    if lower.is_empty() {
        return push_upper(alloc, run, members, &all, k);
    }
    push_ints(alloc, run, members, lower.as_slice(), Atom::True)
}

/// That a member is above the greatest number of a range.
fn above_atom(a: &OrdInt, range: &Range) -> Atom
    requires a { IsBounded a.now }
    requires range { unsigned_abs range.now.high < 2 ^ 100 }
    ensures { result ≡ at_of a.now (range.now.high +ℤ pos 1) }
{
    let beyond = next(range.high);
    a.at(beyond)
}

/// The literals that say that members are above it.
#[tactic(auto, using(crate::proofs::BoundSteps::literals_more))]
fn above_literals(alloc: Global, ints: &[OrdInt], range: &Range) -> Result<Vec<Atom>, AllocError>
    requires ints { AreSound ints.now }
    requires range { unsigned_abs range.now.high < 2 ^ 100 }
    ensures { IfOk result (λ found. found.items ≡ literals (map (λ a. at_of a (range.now.high +ℤ pos 1)) ints.now)) }
{
    let mut found = Vec::new(alloc);
    for a in ints {
        push_literal(&mut found, above_atom(a, range))?;
    }
    Ok(found)
}

/// Adds that atoms of members are false, where those of these and of `c` are literals of different variables.
fn push_above(
    alloc: Global,
    run: &mut Vec<Equation>,
    ints: &[OrdInt],
    c: &OrdInt,
    atoms: &[Atom],
) -> Result<(), AllocError>
    ensures { OnOk result (run.new.items
        ≡ run.old.items ++ map (equation_of Form) (free_bound (c.now ∷ ints.now) atoms.now False)) }
{
    if are_all_free(alloc, c, ints)? {
        push_all(run, atoms, Atom::False)?;
    }
    Ok(())
}

/// Adds that no member of a maximum is above what it is the greatest of.
fn push_max(
    alloc: Global,
    run: &mut Vec<Equation>,
    ints: &[OrdInt],
    c: &OrdInt,
) -> Result<(), AllocError>
    requires ints { AreSound ints.now }
    requires c { IsBounded c.now }
    ensures { OnOk result (run.new.items
        ≡ run.old.items ++ map (equation_of Form) (bound_pairs (Max ints.now c.now))) }
{
    let range = Range::of(c);
    let above = above_literals(alloc, ints, &range)?;
    if !above.is_empty() {
        push_above(alloc, run, ints, c, above.as_slice())?;
    }
    Ok(())
}

/// Adds what a core tells of its members once what it told before is made: that each member of a true conjunction, or
/// of a count at an end, is a constant, what the others leave each member of a sum or a maximum, and that of two
/// members that differ, with the same two values, each has the one that the other has not.
pub(crate) fn push_bounds(
    alloc: Global,
    run: &mut Vec<Equation>,
    core: &Core,
) -> Result<(), AllocError>
    requires { IsWellFormed core.now }
    ensures { OnOk result (run.new.items ≡ run.old.items ++ map (equation_of Form) (bound_pairs core.now)) }
{
    match core {
        Core::Conj(r, ls) => push_conj(alloc, run, *r, ls.as_slice()),
        Core::Count(ls, c) => push_count(alloc, run, ls.as_slice(), c.get()),
        Core::Sum(ints, k) => push_sum(alloc, run, ints, k.get()),
        Core::Max(ints, c) => push_max(alloc, run, ints.as_slice(), c.get()),
        Core::AllDiff(ints, conditions) => {
            push_twins(alloc, run, ints.as_slice(), conditions.get().as_slice())
        }
        _ => Ok(()),
    }
}
