//! The parts of a core.

ghost use Rattle.std.specs.Prelude.{◌≡◌, ◌+◌, ◌^◌, ◌≤◌, ◌∷◌, ◌++◌, [], IfOk, OnOk};
ghost use Rattle.core_forms.specs.Place.{CoreBelow};
ghost use Rattle.core_forms.specs.WellFormed.{IsWellFormed};
ghost use Rattle.core_forms.specs.Cost.{cost_of};
ghost use Rattle.part_base.specs.PartsFor.{ArePartsFor};
ghost use Rattle.decompose.specs.PartsOf.{HasParts, parts_of};

use crate::differing::differing_parts;
use crate::lex::lex_parts;
use crate::sums::sum_parts;
use bee_list::Sequence;
use core_forms::{Core, Taken};
use order_ints::{Atom, OrdInt};
use part_base::{Parts, no_parts};
use std::alloc::{AllocError, Global};

/// The parts, form by form, which take over the core's lists and integers.
fn form_parts(alloc: Global, core: Core, next_var: u32) -> Result<Parts, AllocError>
    requires form { HasParts core }
    requires well_formed { IsWellFormed core }
    requires first { 1 ≤ next_var }
    requires room { next_var + cost_of core ≤ 2 ^ 27 }
    ensures { IfOk result (λ parts. parts ≡ parts_of core next_var) }
{
    match core.take_apart() {
        Taken::Summed(ints, k) => sum_parts(alloc, ints.into_vec(), k, next_var),
        Taken::Differing(ints, conditions) => {
            differing_parts(alloc, ints.into_vec(), conditions.into_vec(), next_var)
        }
        Taken::Words(r, strict, front, back) => {
            lex_parts(
                alloc,
                r,
                strict,
                front.into_vec(),
                back.into_vec(),
                next_var,
            )
        }
        _ => Ok(no_parts(alloc)),
    }
}

/// Puts a copy of an integer behind others.
fn put_copy(ints: &mut Vec<OrdInt>, a: &OrdInt) -> Result<(), AllocError>
    ensures { OnOk result (ints.new.items ≡ ints.old.items ++ a.now ∷ []) }
{
    let copy = a.clone()?;
    ints.push(copy)?;
    Ok(())
}

/// A copy of integers.
fn copied_ints(alloc: Global, ints: &Sequence<OrdInt>) -> Result<Vec<OrdInt>, AllocError>
    ensures { IfOk result (λ copy. copy.items ≡ ints.now) }
{
    let mut copy = Vec::with_capacity(alloc, ints.len())?;
    for a in ints.as_slice() {
        put_copy(&mut copy, a)?;
    }
    Ok(copy)
}

/// A copy of atoms.
fn copied_atoms(alloc: Global, atoms: &Sequence<Atom>) -> Result<Vec<Atom>, AllocError>
    ensures { IfOk result (λ copy. copy.items ≡ atoms.now) }
{
    Ok(atoms.as_slice().to_vec(alloc)?)
}

/// The parts, form by form, with copies of the core's lists and integers.
fn kept_parts(alloc: Global, core: &Core, next_var: u32) -> Result<Parts, AllocError>
    requires form { HasParts core.now }
    requires well_formed { IsWellFormed core.now }
    requires first { 1 ≤ next_var }
    requires room { next_var + cost_of core.now ≤ 2 ^ 27 }
    ensures { IfOk result (λ parts. parts ≡ parts_of core.now next_var) }
{
    match core {
        Core::Sum(ints, k) => sum_parts(
            alloc,
            copied_ints(alloc, ints.sequence())?,
            *k.get(),
            next_var,
        ),
        Core::AllDiff(ints, conditions) => {
            let conditions = copied_atoms(alloc, conditions.get())?;
            differing_parts(alloc, copied_ints(alloc, ints)?, conditions, next_var)
        }
        Core::Lex(r, strict, front, back) => {
            let front = copied_ints(alloc, front.get())?;
            let back = copied_ints(alloc, back.get())?;
            lex_parts(alloc, *r, *strict, front, back, next_var)
        }
        _ => Ok(no_parts(alloc)),
    }
}

/// The parts of a core, which take over its lists and integers. The fresh variables are `next_var` and
/// those after it. It takes time and memory linear in the parts, but for one sort of the values of
/// different members.
pub fn parts_from(alloc: Global, core: Core, next_var: u32) -> Result<Parts, AllocError>
    requires form { HasParts core }
    requires well_formed { IsWellFormed core }
    requires below { CoreBelow next_var core }
    requires first { 1 ≤ next_var }
    requires room { next_var + cost_of core ≤ 2 ^ 27 }
    ensures shape { IfOk result (λ parts. parts ≡ parts_of core next_var) }
    ensures parts { IfOk result (λ parts. ArePartsFor core next_var parts) }
{
    form_parts(alloc, core, next_var)
}

/// The parts of a core that is kept, with copies of its lists and integers.
pub fn parts(alloc: Global, core: &Core, next_var: u32) -> Result<Parts, AllocError>
    requires form { HasParts core.now }
    requires well_formed { IsWellFormed core.now }
    requires below { CoreBelow next_var core.now }
    requires first { 1 ≤ next_var }
    requires room { next_var + cost_of core.now ≤ 2 ^ 27 }
    ensures shape { IfOk result (λ parts. parts ≡ parts_of core.now next_var) }
    ensures parts { IfOk result (λ parts. ArePartsFor core.now next_var parts) }
{
    kept_parts(alloc, core, next_var)
}
