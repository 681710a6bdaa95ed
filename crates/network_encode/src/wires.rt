//! The row of comparators of a merge network, and its wires.

ghost use Rattle.order_ints.specs.Label.{own_labels};
ghost use Rattle.std.specs.Prelude.{◌≡◌, ◌+◌, ◌-◌, ◌*◌, ◌^◌, ◌++◌, ◌≤◌, min, IfOk};
ghost use Rattle.std.specs.Prelude.{OnOk};
ghost use Rattle.network_encode.specs.MergeParts.{weighted, comparators, wires};

use bee_list::Sequence;
use core_forms::Core;
use order_ints::Atom;
use part_base::fresh_atom;
use std::alloc::{AllocError, Global};

/// How many comparators there are, where the sums of the odd and of the even places have so many steps.
pub(crate) fn pairs(odd: u32, even: u32) -> u32
    requires { 1 ≤ odd }
    ensures { result ≡ min (odd - 1) even }
{
    (odd - 1).min(even)
}

/// Puts the comparators behind other cores. The fresh variables of the sums are those from one on, and those
/// of the comparators follow on them.
pub(crate) fn push_comparators(
    cores: &mut Vec<Core>,
    next: u32,
    odd: u32,
    even: u32,
) -> Result<(), AllocError>
    requires some { 1 ≤ odd }
    requires room { next + odd + even + 2 * min (odd - 1) even ≤ 2 ^ 27 }
    ensures { OnOk result (cores.new.items ≡ cores.old.items ++ comparators next odd even) }
{
    let alloc = *cores.allocator();
    let fresh = next + odd + even;
    for k in 0..pairs(odd, even) {
        let above = fresh_atom(fresh + 2 * k);
        let below = fresh_atom(fresh + 2 * k + 1);
        let first = fresh_atom(next + 1 + k);
        let second = fresh_atom(next + odd + k);
        let core = Core::comp(alloc, first, second, above, below)?;
        cores.push(core)?;
    }
    Ok(())
}

/// Puts steps of one weight behind others, with the variables from one on.
fn push_steps(
    steps: &mut Vec<(Atom, u128)>,
    first: u32,
    count: u32,
    weight: u128,
) -> Result<(), AllocError>
    requires { first + count ≤ 2 ^ 28 }
    ensures { OnOk result (steps.new.items ≡ steps.old.items ++ weighted weight (own_labels first count)) }
{
    for k in 0..count {
        steps.push((fresh_atom(first + k), weight))?;
    }
    Ok(())
}

/// The wires, each with a weight: the first one of the odd places, those of the comparators, and what has no
/// partner.
pub(crate) fn wire_steps(
    alloc: Global,
    next: u32,
    odd: u32,
    even: u32,
    weight: u128,
) -> Result<Sequence<(Atom, u128)>, AllocError>
    requires some { 1 ≤ odd }
    requires room { next + odd + even + 2 * min (odd - 1) even ≤ 2 ^ 27 }
    ensures { IfOk result (λ steps. steps ≡ weighted weight (wires next odd even)) }
{
    let pairs = pairs(odd, even);
    let mut steps = Vec::with_capacity(alloc, (odd + even) as usize)?;
    push_steps(&mut steps, next, 1, weight)?;
    push_steps(&mut steps, next + odd + even, 2 * pairs, weight)?;
    push_steps(&mut steps, next + 1 + pairs, odd - 1 - pairs, weight)?;
    push_steps(&mut steps, next + odd + pairs, even - pairs, weight)?;
    Ok(Sequence::from_vec(steps))
}
