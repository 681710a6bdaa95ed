//! Trimming of integers in the order encoding.

ghost use Rattle.std.specs.Prelude.{◌≡◌, ◌+◌, ◌^◌, ◌<◌, IfOk, neg_ℤ, pos, unsigned_abs, ◌+ℤ◌};
ghost use Rattle.order_ints.specs.View.{resolve};
ghost use Rattle.order_ints.specs.OrderRange.{weights, IsBounded};
ghost use Rattle.order_ints.specs.OrderChange.{shifted_of};
ghost use Rattle.core_forms.specs.Resolved.{map_steps, map_int, map_ints};
ghost use Rattle.core_forms.specs.WellFormed.{AreSound};
ghost use Rattle.core_forms.specs.Trimmed.{merged_steps, tidied_int, tidied_ints};

use bee_list::Sequence;
use order_ints::{Atom, OrdInt, resolve};
use std::alloc::{AllocError, Global};

/// A step and those behind it, where neighbours with one atom are one step and False steps at the end
/// are gone.
fn merged(
    alloc: Global,
    first: Atom,
    least: u128,
    rest: &[(Atom, u128)],
    view: &[Atom],
) -> Result<Sequence<(Atom, u128)>, AllocError>
    requires { least + weights rest.now < 2 ^ 128 }
    ensures { IfOk result (λ steps. steps ≡ merged_steps first least (map_steps (resolve view.now) rest.now)) }
{
    let mut steps = Vec::with_capacity(alloc, rest.len() + 1)?;
    let mut atom = first;
    let mut weight = least;
    for step in rest {
        let next = resolve(view, step.0);
        if atom == next {
            weight += step.1;
        } else {
            steps.push((atom, weight))?;
            atom = next;
            weight = step.1;
        }
    }
    if !atom.is_false() {
        steps.push((atom, weight))?;
    }
    Ok(Sequence::from_vec(steps))
}

/// A base raised by a weight.
fn raised(base: i128, by: u128) -> i128
    requires from { unsigned_abs base < 2 ^ 100 }
    requires to { unsigned_abs (base +ℤ pos by) < 2 ^ 100 }
    ensures { result ≡ base +ℤ pos by }
{
    base + by as i128
}

/// An integer as the view has it, its leading True steps in the base, without trailing False steps, and
/// with neighbours of one atom in one step.
pub(crate) fn trimmed_int(alloc: Global, a: &OrdInt, view: &[Atom]) -> Result<OrdInt, AllocError>
    requires { IsBounded a.now }
    ensures shape { IfOk result (λ b. b ≡ tidied_int (map_int (resolve view.now) a.now)) }
    ensures range { IfOk result (λ b. unsigned_abs b.base < 2 ^ 100) }
{
    let steps = a.steps.as_slice();
    let mut base = a.base;
    for i in 0..steps.len() {
        let atom = resolve(view, steps[i].0);
        if !atom.is_true() {
            let steps = merged(alloc, atom, steps[i].1, &steps[i + 1..], view)?;
            return Ok(OrdInt { base, steps });
        }
        base = raised(base, steps[i].1);
    }
    let steps = Sequence::from_vec(Vec::new(alloc));
    Ok(OrdInt { base, steps })
}

/// An integer made smaller by a number.
pub(super) fn lowered(a: OrdInt, by: usize) -> OrdInt
    requires { unsigned_abs a.base < 2 ^ 100 }
    ensures { result ≡ shifted_of a (neg_ℤ (pos by)) }
{
    let OrdInt { base, steps } = a;
    OrdInt {
        base: base - by as i128,
        steps,
    }
}

/// Each integer, trimmed.
pub(super) fn trimmed_ints(
    alloc: Global,
    ints: &[OrdInt],
    view: &[Atom],
) -> Result<Sequence<OrdInt>, AllocError>
    requires { AreSound ints.now }
    ensures { IfOk result (λ trimmed. trimmed ≡ tidied_ints (map_ints (resolve view.now) ints.now)) }
{
    let mut trimmed = Vec::with_capacity(alloc, ints.len())?;
    for a in ints {
        trimmed.push(trimmed_int(alloc, a, view)?)?;
    }
    Ok(Sequence::from_vec(trimmed))
}
