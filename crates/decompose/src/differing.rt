//! The parts of different members.

ghost use Rattle.std.specs.Prelude.{◌≡◌, ◌+◌, ◌==◌, ◌^◌, ◌<◌, ◌≤◌, ◌++◌, ◌&&◌, []};
ghost use Rattle.std.specs.Prelude.{IfOk, OnOk, length, map, unsigned_abs, if◌then◌else◌};
ghost use Rattle.order_ints.specs.OrderLevels.{values_of};
ghost use Rattle.core_forms.specs.declared.form.Core.TheVariants.{Ladder, Clause, Amo};
ghost use Rattle.core_forms.specs.WellFormed.{IsSound, AreSound};
ghost use Rattle.decompose.specs.DifferingParts.{all_values, mark_core, mark_cores, all_mark_cores, are_true};
ghost use Rattle.decompose.specs.DifferingParts.{differing_parts};

use crate::by_value::{all_values, groups, marks};
use bee_list::Sequence;
use core_forms::Core;
use order_ints::{Atom, OrdInt, Walk};
use part_base::{Parts, fresh_atom};
use std::alloc::{AllocError, Global};

/// A mark is true exactly where the member has the value and its condition is true. The walk along the
/// member goes there.
fn mark_core(
    alloc: Global,
    walk: &mut Walk<'_>,
    condition: Atom,
    value: i128,
    var: u32,
) -> Result<Core, AllocError>
    requires { unsigned_abs value < 2 ^ 100 }
    ensures core { IfOk result (λ core. core ≡ mark_core var walk.old.int.now condition value) }
    ensures same { walk.new.int.now ≡ walk.old.int.now }
{
    let reached = walk.at(value);
    let exceeded = walk.at(value + 1);
    let atoms = vec![in alloc; reached, exceeded.not(), condition]?;
    Ok(Core::Conj(fresh_atom(var), Sequence::from_vec(atoms)))
}

/// Puts the cores of the marks of a member's values behind others.
fn put_mark_cores(
    alloc: Global,
    cores: &mut Vec<Core>,
    a: &OrdInt,
    condition: Atom,
    first_var: u32,
) -> Result<(), AllocError>
    requires sound { IsSound a.now }
    requires room { first_var + length (values_of a.now) < 2 ^ 32 }
    ensures { OnOk result (cores.new.items
        ≡ cores.old.items ++ mark_cores first_var a.now condition (values_of a.now)) }
{
    let mut walk = Walk::along(a);
    let mut var = first_var;
    for (value, _) in a.levels() {
        cores.push(mark_core(alloc, &mut walk, condition, value, var)?)?;
        var += 1;
    }
    Ok(())
}

/// The cores of all marks, one member after another.
fn all_mark_cores(
    alloc: Global,
    ints: &[OrdInt],
    conditions: &[Atom],
    next_var: u32,
) -> Result<Vec<Core>, AllocError>
    requires sound { AreSound ints.now }
    requires room { next_var + length (all_values ints.now) < 2 ^ 32 }
    ensures { IfOk result (λ cores. cores.items ≡ all_mark_cores next_var ints.now conditions.now) }
{
    let mut cores = Vec::new(alloc);
    let mut rest = ints;
    let mut var = next_var;
    for condition in conditions {
        let Some((a, others)) = rest.split_first() else {
            return Ok(cores);
        };
        put_mark_cores(alloc, &mut cores, a, *condition, var)?;
        var += a.steps.len() as u32 + 1;
        rest = others;
    }
    Ok(cores)
}

/// Each member is ordered.
fn ladders(alloc: Global, ints: Vec<OrdInt>) -> Result<Vec<Core>, AllocError>
    ensures { IfOk result (λ cores. cores.items ≡ map (λ a. Ladder a) ints.items) }
{
    let mut cores = Vec::with_capacity(alloc, ints.len())?;
    for a in ints {
        cores.push(Core::ladder(alloc, a)?)?;
    }
    Ok(cores)
}

/// At most one member of each group is true.
fn amos(alloc: Global, groups: Vec<Sequence<Atom>>) -> Result<Vec<Core>, AllocError>
    ensures { IfOk result (λ cores. cores.items ≡ map (λ group. Amo group) groups.items) }
{
    let mut cores = Vec::with_capacity(alloc, groups.len())?;
    for group in groups {
        cores.push(Core::Amo(group))?;
    }
    Ok(cores)
}

/// Some member of a group is true. The group is copied.
fn clause(group: &Sequence<Atom>) -> Result<Core, AllocError>
    ensures { IfOk result (λ core. core ≡ Clause group.now) }
{
    Ok(Core::Clause(group.clone()?))
}

/// Some member of each group is true.
fn clauses(alloc: Global, groups: &[Sequence<Atom>]) -> Result<Vec<Core>, AllocError>
    ensures { IfOk result (λ cores. cores.items ≡ map (λ group. Clause group) groups.now) }
{
    let mut cores = Vec::with_capacity(alloc, groups.len())?;
    for group in groups {
        cores.push(clause(group)?)?;
    }
    Ok(cores)
}

/// Whether all conditions are true, whatever the valuation.
fn are_true(conditions: &[Atom]) -> bool
    ensures { result ≡ are_true conditions.now }
{
    for condition in conditions {
        if !condition.is_true() {
            return false;
        }
    }
    true
}

/// That each value is some member's, where it must be.
fn reached(
    alloc: Global,
    conditions: &[Atom],
    members: usize,
    groups: &[Sequence<Atom>],
) -> Result<Vec<Core>, AllocError>
    ensures { IfOk result (λ cores. cores.items
        ≡ (if are_true conditions.now && (length groups.now == members) then map (λ group. Clause group) groups.now
        else [])) }
{
    if groups.len() == members && are_true(conditions) {
        return clauses(alloc, groups);
    }
    Ok(Vec::new(alloc))
}

/// Four lists, one after another.
fn joined(
    first: Vec<Core>,
    second: Vec<Core>,
    third: Vec<Core>,
    fourth: Vec<Core>,
) -> Result<Sequence<Core>, AllocError>
    ensures { IfOk result
        (λ cores. cores ≡ first.items ++ (second.items ++ (third.items ++ fourth.items))) }
{
    let mut cores = first;
    let (mut second, mut third, mut fourth) = (second, third, fourth);
    cores.append(&mut second)?;
    cores.append(&mut third)?;
    cores.append(&mut fourth)?;
    Ok(Sequence::from_vec(cores))
}

/// The parts of different members. It takes time linear in these, but for one sort of the values.
pub(crate) fn differing_parts(
    alloc: Global,
    ints: Vec<OrdInt>,
    conditions: Vec<Atom>,
    next_var: u32,
) -> Result<Parts, AllocError>
    requires sound { AreSound ints.items }
    requires room { next_var + length (all_values ints.items) ≤ 2 ^ 27 }
    ensures { IfOk result (λ parts. parts ≡ differing_parts next_var ints.items conditions.items) }
{
    let values = all_values(alloc, ints.as_slice())?;
    let groups = groups(alloc, marks(alloc, values.as_slice(), next_var)?)?;
    let second = all_mark_cores(alloc, ints.as_slice(), conditions.as_slice(), next_var)?;
    let fourth = reached(alloc, conditions.as_slice(), ints.len(), groups.as_slice())?;
    let third = amos(alloc, groups)?;
    let first = ladders(alloc, ints)?;
    Ok(Parts {
        cores: joined(first, second, third, fourth)?,
        fresh: values.len() as u32,
    })
}
