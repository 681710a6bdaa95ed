//! The parts of a count, by halves.

ghost use Rattle.std.specs.Prelude.{◌≡◌, ◌+◌, ◌++◌, ◌≤◌, ◌<◌, ◌^◌, length, IfOk, OnOk};
ghost use Rattle.network_encode.specs.CountParts.{half_int, half_fresh, half_cores, halves_parts, count_parts};

use bee_list::Sequence;
use core_forms::Core;
use order_ints::{Atom, OrdInt};
use part_base::Parts;
use std::alloc::{AllocError, Global};

/// The number of true members of a half as an integer: of more than one member it has fresh variables from
/// one on.
fn half_int(alloc: Global, atoms: &[Atom], next: u32) -> Result<OrdInt, AllocError>
    requires least { 1 ≤ next }
    requires room { next + length atoms.now ≤ 2 ^ 27 + 1 }
    ensures { IfOk result (λ a. a ≡ half_int next atoms.now) }
{
    match atoms.len() {
        0 => OrdInt::constant(alloc, 0),
        1 => OrdInt::of_atom(alloc, atoms[0]),
        members => OrdInt::unit_range(alloc, 0, next, members as u32),
    }
}

/// How many fresh variables a half has.
fn half_fresh(atoms: &[Atom]) -> u32
    requires { length atoms.now < 2 ^ 32 }
    ensures { result ≡ half_fresh atoms.now }
{
    if atoms.len() < 2 {
        return 0;
    }
    atoms.len() as u32
}

/// Puts the count of a half behind other cores, where its integer is fresh.
fn push_half(cores: &mut Vec<Core>, atoms: &[Atom], next: u32) -> Result<(), AllocError>
    requires least { 1 ≤ next }
    requires room { next + length atoms.now ≤ 2 ^ 27 + 1 }
    ensures { OnOk result (cores.new.items ≡ cores.old.items ++ half_cores next atoms.now) }
{
    if atoms.len() < 2 {
        return Ok(());
    }
    let alloc = *cores.allocator();
    let mut members = Vec::with_capacity(alloc, atoms.len())?;
    members.extend_from_slice(atoms)?;
    let number = half_int(alloc, atoms, next)?;
    let core = Core::count(alloc, Sequence::from_vec(members), number)?;
    cores.push(core)?;
    Ok(())
}

/// The parts of a count whose halves are given.
fn of_halves(
    alloc: Global,
    front: &[Atom],
    back: &[Atom],
    c: OrdInt,
    next: u32,
) -> Result<Parts, AllocError>
    requires least { 1 ≤ next }
    requires room { next + length front.now + length back.now ≤ 2 ^ 27 }
    ensures { IfOk result (λ p. p ≡ halves_parts next front.now back.now c) }
{
    let middle = next + half_fresh(front);
    let mut cores = Vec::with_capacity(alloc, 3)?;
    push_half(&mut cores, front, next)?;
    push_half(&mut cores, back, middle)?;
    let first = half_int(alloc, front, next)?;
    let second = half_int(alloc, back, middle)?;
    cores.push(Core::sum3(alloc, first, second, c)?)?;
    Ok(Parts {
        cores: Sequence::from_vec(cores),
        fresh: half_fresh(front) + half_fresh(back),
    })
}

/// The parts of a count. They take over its integer.
pub(crate) fn of_count(
    alloc: Global,
    atoms: &[Atom],
    c: OrdInt,
    next: u32,
) -> Result<Parts, AllocError>
    requires least { 1 ≤ next }
    requires room { next + length atoms.now ≤ 2 ^ 27 }
    ensures { IfOk result (λ p. p ≡ count_parts next atoms.now c) }
{
    let (front, back) = atoms.split_at((atoms.len() + 1) / 2);
    of_halves(alloc, front, back, c, next)
}

/// The parts of a count whose integer is lent.
pub(crate) fn of_lent_count(
    alloc: Global,
    atoms: &[Atom],
    c: &OrdInt,
    next: u32,
) -> Result<Parts, AllocError>
    requires least { 1 ≤ next }
    requires room { next + length atoms.now ≤ 2 ^ 27 }
    ensures { IfOk result (λ p. p ≡ count_parts next atoms.now c.now) }
{
    of_count(alloc, atoms, c.clone()?, next)
}
