//! The units of the steps of integers, and their odd and even places.

ghost use Rattle.std.specs.Prelude.{◌≡◌, ◌+◌, ◌*◌, ◌^◌, ◌++◌, ◌≤◌, ◌<◌, drop, length};
ghost use Rattle.std.specs.Prelude.{IfOk, OnOk};
ghost use Rattle.network_encode.specs.MergeParts.{copies, units_of, odd_places, unit_int};

use bee_list::Sequence;
use order_ints::{Atom, OrdInt};
use std::alloc::{AllocError, Global};

/// Puts an atom so many times behind others.
fn push_copies(atoms: &mut Vec<Atom>, atom: Atom, count: u128) -> Result<(), AllocError>
    ensures { OnOk result (atoms.new.items ≡ atoms.old.items ++ copies count atom) }
{
    for k in 0..count {
        atoms.push(atom)?;
    }
    Ok(())
}

/// The units of steps: each step's atom once for each unit in its weight.
pub(crate) fn units(
    alloc: Global,
    steps: &[(Atom, u128)],
    unit: u128,
) -> Result<Vec<Atom>, AllocError>
    requires { 0 < unit }
    ensures { IfOk result (λ atoms. atoms.items ≡ units_of unit steps.now) }
{
    let mut atoms = Vec::with_capacity(alloc, steps.len())?;
    for i in 0..steps.len() {
        let (atom, weight) = steps[i];
        push_copies(&mut atoms, atom, weight / unit)?;
    }
    Ok(atoms)
}

/// The integer with a step of weight 1 for each second atom, the first of them at a given place.
pub(crate) fn second_places(
    alloc: Global,
    atoms: &[Atom],
    first: usize,
) -> Result<OrdInt, AllocError>
    requires { first ≤ 1 }
    ensures { IfOk result (λ a. a ≡ unit_int (odd_places (drop first atoms.now))) }
{
    let mut steps = Vec::with_capacity(alloc, atoms.len() / 2 + 1)?;
    for k in 0..(atoms.len() + 1 - first) / 2 {
        steps.push((atoms[first + 2 * k], 1))?;
    }
    Ok(OrdInt {
        base: 0,
        steps: Sequence::from_vec(steps),
    })
}
