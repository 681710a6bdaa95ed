//! The equations that of two members with the same two values each has the one that the other has not.

ghost use Rattle.std.specs.Prelude.{◌≡◌, ◌++◌, length, map, IfOk, OnOk};
ghost use Rattle.core_forms.specs.WellFormed.{AreSound};
ghost use Rattle.core_forms.specs.declared.equation.Rule.TheVariants.{Form};
ghost use Rattle.core_forms.specs.declared.form.Core.TheVariants.{AllDiff};
ghost use Rattle.equation_runs.specs.FreeAtoms.{are_free};
ghost use Rattle.equation_runs.specs.RunRows.{equation_of};
ghost use Rattle.equation_runs.specs.BoundRows.{bound_pairs};
ghost use Rattle.equation_runs.specs.TwinPairs.{unless_one, opposite_pair, opposite_pairs, both_atoms};

use crate::free::are_free;
use crate::links::push_pair;
use crate::twins::earlier_twin;
use alldiff_rules::atom_at;
use core_forms::Equation;
use order_ints::{Atom, OrdInt};
use std::alloc::{AllocError, Global};
use std::collections::BTreeMap;

/// Adds a pair of atoms, unless they are one.
fn put_unless_one(pairs: &mut Vec<(Atom, Atom)>, q: Atom, p: Atom) -> Result<(), AllocError>
    ensures { OnOk result (pairs.new.items ≡ pairs.old.items ++ unless_one q p) }
{
    if q != p {
        pairs.push((q, p))?;
    }
    Ok(())
}

/// Adds the pair of the member at a place and its earlier twin.
fn put_opposite(
    pairs: &mut Vec<(Atom, Atom)>,
    ints: &[OrdInt],
    place: usize,
    twin: Option<usize>,
) -> Result<(), AllocError>
    ensures { OnOk result (pairs.new.items ≡ pairs.old.items ++ opposite_pair ints.now place twin) }
{
    if let Some(first) = twin {
        let p = atom_at(ints, place).not();
        put_unless_one(pairs, atom_at(ints, first), p)?;
    }
    Ok(())
}

/// The pairs of all members and their earlier twins, in time near-linear in the members.
fn opposite_pairs(
    alloc: Global,
    ints: &[OrdInt],
    conditions: &[Atom],
) -> Result<Vec<(Atom, Atom)>, AllocError>
    requires lengths { length ints.now ≡ length conditions.now }
    requires sound { AreSound ints.now }
    ensures { IfOk result (λ pairs. pairs.items ≡ opposite_pairs ints.now conditions.now (length ints.now)) }
{
    let mut firsts = BTreeMap::new(alloc);
    let mut pairs = Vec::new(alloc);
    for place in 0..ints.len() {
        let twin = earlier_twin(&mut firsts, ints, conditions, place)?;
        put_opposite(&mut pairs, ints, place, twin)?;
    }
    Ok(pairs)
}

/// The atoms of pairs.
fn both_atoms(alloc: Global, pairs: &[(Atom, Atom)]) -> Result<Vec<Atom>, AllocError>
    ensures { IfOk result (λ atoms. atoms.items ≡ both_atoms pairs.now) }
{
    let mut atoms = Vec::new(alloc);
    for pair in pairs {
        atoms.push(pair.0)?;
        atoms.push(pair.1)?;
    }
    Ok(atoms)
}

/// Whether the atoms of pairs are literals of different variables.
fn are_pairs_free(alloc: Global, pairs: &[(Atom, Atom)]) -> Result<bool, AllocError>
    ensures { IfOk result (λ free. free ≡ are_free (both_atoms pairs.now)) }
{
    let atoms = both_atoms(alloc, pairs)?;
    are_free(alloc, atoms.as_slice())
}

/// Adds that the atoms of each pair are equal.
fn push_pairs(run: &mut Vec<Equation>, pairs: &[(Atom, Atom)]) -> Result<(), AllocError>
    ensures { OnOk result (run.new.items ≡ run.old.items ++ map (equation_of Form) pairs.now) }
{
    for pair in pairs {
        push_pair(run, pair.0, pair.1)?;
    }
    Ok(())
}

/// Adds that of two members with the same two values each has the one that the other has not, where the atoms that say
/// so are literals of different variables.
pub(crate) fn push_twins(
    alloc: Global,
    run: &mut Vec<Equation>,
    ints: &[OrdInt],
    conditions: &[Atom],
) -> Result<(), AllocError>
    requires lengths { length ints.now ≡ length conditions.now }
    requires sound { AreSound ints.now }
    ensures { OnOk result (run.new.items
        ≡ run.old.items ++ map (equation_of Form) (bound_pairs (AllDiff ints.now conditions.now))) }
{
    let pairs = opposite_pairs(alloc, ints, conditions)?;
    if are_pairs_free(alloc, pairs.as_slice())? {
        push_pairs(run, pairs.as_slice())?;
    }
    Ok(())
}
