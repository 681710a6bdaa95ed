//! The parts of a sum of two integers, by a network of odd-even merging.

ghost use Rattle.std.specs.Prelude.{◌≡◌, ◌+◌, ◌-◌, ◌*◌, ◌^◌, ◌++◌, ◌∷◌, [], ◌≤◌};
ghost use Rattle.std.specs.Prelude.{◌<◌, ◌+ℤ◌, drop, min, length, IsTrue, IfOk, OnOk};
ghost use Rattle.core_cost.specs.Network.{has_network, half_up, half_down};
ghost use Rattle.core_cost.specs.Sums.{first_units, second_units};
ghost use Rattle.core_forms.specs.declared.form.Core.TheVariants.{Ladder, Sum3};
ghost use Rattle.core_forms.specs.Shapes.{shape_of};
ghost use Rattle.core_forms.specs.WellFormed.{IsWellFormed, greatest_abs};
ghost use Rattle.network_encode.specs.MergeParts.{odd_places, unit_sum, half_sums, network_parts, merge_parts};
ghost use Rattle.network_encode.specs.NetworkParts.{cost_by_parts};

use crate::units::{second_places, units};
use crate::wires::{pairs, push_comparators, wire_steps};
use bee_list::Sequence;
use core_cost::common_divisor;
use core_forms::{Core, shape};
use order_ints::{Atom, OrdInt};
use part_base::Parts;
use std::alloc::{AllocError, Global};

/// The sum of the units at each second place of two lists, the first of them at a given place, which has so
/// many steps.
fn half_sum(
    alloc: Global,
    first: &[Atom],
    second: &[Atom],
    place: usize,
    next: u32,
    count: u32,
) -> Result<Core, AllocError>
    requires place { place ≤ 1 }
    requires least { 1 ≤ next }
    requires room { next + count ≤ 2 ^ 27 }
    requires steps { count ≡ length (odd_places (drop place first.now))
        + length (odd_places (drop place second.now)) }
    ensures { IfOk result (λ core. core
        ≡ unit_sum next (odd_places (drop place first.now)) (odd_places (drop place second.now))) }
{
    let a = second_places(alloc, first, place)?;
    let b = second_places(alloc, second, place)?;
    let c = OrdInt::unit_range(alloc, 0, next, count)?;
    Core::sum3(alloc, a, b, c)
}

/// Puts the sums of the units at the odd places and of those at the even places behind other cores.
fn push_half_sums(
    cores: &mut Vec<Core>,
    first: &[Atom],
    second: &[Atom],
    next: u32,
    odd: u32,
    even: u32,
) -> Result<(), AllocError>
    requires least { 1 ≤ next }
    requires room { next + odd + even ≤ 2 ^ 27 }
    requires odd { odd ≡ half_up (length first.now) + half_up (length second.now) }
    requires even { even ≡ half_down (length first.now) + half_down (length second.now) }
    ensures { OnOk result (cores.new.items ≡ cores.old.items ++ half_sums next first.now second.now) }
{
    let alloc = *cores.allocator();
    let odd_sum = half_sum(alloc, first, second, 0, next, odd)?;
    cores.push(odd_sum)?;
    let even_sum = half_sum(alloc, first, second, 1, next + odd, even)?;
    cores.push(even_sum)?;
    Ok(())
}

/// That two integers are ordered, with room for so many further cores.
fn ladders(alloc: Global, a: OrdInt, b: OrdInt, further: u32) -> Result<Vec<Core>, AllocError>
    requires { further < 2 ^ 28 }
    ensures { IfOk result (λ cores. cores.items ≡ Ladder a ∷ Ladder b ∷ []) }
{
    let mut cores = Vec::with_capacity(alloc, further as usize + 2)?;
    cores.push(Core::ladder(alloc, a)?)?;
    cores.push(Core::ladder(alloc, b)?)?;
    Ok(cores)
}

/// The integer that has the steps of the wires, and the least value of a sum.
fn merged(a: &OrdInt, b: &OrdInt, steps: Sequence<(Atom, u128)>) -> OrdInt
    requires { greatest_abs a.now + greatest_abs b.now < 2 ^ 100 }
    ensures { result ≡ record { base = a.now.base +ℤ b.now.base; steps = steps } }
{
    OrdInt {
        base: a.base + b.base,
        steps,
    }
}

/// The parts of a sum whose sides have the given units.
fn of_units(
    alloc: Global,
    sides: (OrdInt, OrdInt),
    c: OrdInt,
    unit: u128,
    first: &[Atom],
    second: &[Atom],
    next: u32,
) -> Result<Parts, AllocError>
    requires limit { greatest_abs sides.0 + greatest_abs sides.1 < 2 ^ 100 }
    requires some { 1 ≤ length first.now }
    requires least { 1 ≤ next }
    requires room { next + 2 * (length first.now + length second.now) ≤ 2 ^ 27 + 1 }
    ensures { IfOk result (λ p. p ≡ network_parts next sides.0 sides.1 c unit first.now second.now) }
{
    let (a, b) = sides;
    let (firsts, seconds) = (first.len() as u32, second.len() as u32);
    let odd = (firsts + 1) / 2 + (seconds + 1) / 2;
    let even = firsts / 2 + seconds / 2;
    let pairs = pairs(odd, even);
    let sum = merged(&a, &b, wire_steps(alloc, next, odd, even, unit)?);
    let mut cores = ladders(alloc, a, b, pairs + 3)?;
    push_half_sums(&mut cores, first, second, next, odd, even)?;
    push_comparators(&mut cores, next, odd, even)?;
    cores.push(Core::eq_r(alloc, Atom::True, sum, c)?)?;
    Ok(Parts {
        cores: Sequence::from_vec(cores),
        fresh: odd + even + 2 * pairs,
    })
}

/// The parts of a sum that has a network. It takes over the integers.
pub(crate) fn of_sum(
    alloc: Global,
    a: OrdInt,
    b: OrdInt,
    c: OrdInt,
    next: u32,
) -> Result<Parts, AllocError>
    requires network { IsTrue (has_network (first_units (shape_of a) (shape_of b))
        (second_units (shape_of a) (shape_of b))) }
    requires well_formed { IsWellFormed (Sum3 a b c) }
    requires least { 1 ≤ next }
    requires room { next + cost_by_parts (Sum3 a b c) ≤ 2 ^ 27 }
    ensures { IfOk result (λ p. p ≡ merge_parts next a b c) }
{
    let unit = common_divisor(shape(&a).divisor, shape(&b).divisor);
    let first = units(alloc, a.steps.as_slice(), unit)?;
    let second = units(alloc, b.steps.as_slice(), unit)?;
    of_units(alloc, (a, b), c, unit, &first, &second, next)
}

/// An integer once more.
fn copied(a: &OrdInt) -> Result<OrdInt, AllocError>
    ensures { IfOk result (λ b. b ≡ a.now) }
{
    a.clone()
}

/// The parts of a sum that has a network, whose integers are lent.
pub(crate) fn of_lent_sum(
    alloc: Global,
    a: &OrdInt,
    b: &OrdInt,
    c: &OrdInt,
    next: u32,
) -> Result<Parts, AllocError>
    requires network { IsTrue (has_network (first_units (shape_of a.now) (shape_of b.now))
        (second_units (shape_of a.now) (shape_of b.now))) }
    requires well_formed { IsWellFormed (Sum3 a.now b.now c.now) }
    requires least { 1 ≤ next }
    requires room { next + cost_by_parts (Sum3 a.now b.now c.now) ≤ 2 ^ 27 }
    ensures { IfOk result (λ p. p ≡ merge_parts next a.now b.now c.now) }
{
    of_sum(alloc, copied(a)?, copied(b)?, copied(c)?, next)
}
