//! Trimming of lists of atoms.

ghost use Rattle.std.specs.Prelude.{◌≡◌, ◌≤◌, IfOk, map, length};
ghost use Rattle.order_ints.specs.View.{resolve};
ghost use Rattle.core_forms.specs.Trimmed.{without_false, without_constants, constant_trues, turned, tidied_clause};
ghost use Rattle.core_forms.specs.Trimmed.{tidied_members};

use super::stable::are_stable;
use bee_list::Sequence;
use order_ints::{Atom, resolve};
use std::alloc::{AllocError, Global};

/// The atoms as the view has them.
pub(super) fn resolved(
    alloc: Global,
    atoms: &[Atom],
    view: &[Atom],
) -> Result<Sequence<Atom>, AllocError>
    ensures { IfOk result (λ kept. kept ≡ map (resolve view.now) atoms.now) }
{
    let mut kept = Vec::with_capacity(alloc, atoms.len())?;
    for atom in atoms {
        kept.push(resolve(view, *atom))?;
    }
    Ok(Sequence::from_vec(kept))
}

/// The atoms of a clause: True alone where it is one of them, and otherwise those that are not False.
pub(super) fn trimmed_clause(
    alloc: Global,
    atoms: &[Atom],
    view: &[Atom],
) -> Result<Sequence<Atom>, AllocError>
    ensures { IfOk result (λ kept. kept ≡ tidied_clause (map (resolve view.now) atoms.now)) }
{
    let mut kept = Vec::with_capacity(alloc, atoms.len())?;
    for atom in atoms {
        match resolve(view, *atom) {
            Atom::True => {
                kept.clear();
                kept.push(Atom::True)?;
                return Ok(Sequence::from_vec(kept));
            }
            Atom::False => {}
            Atom::Of(literal) => kept.push(Atom::Of(literal))?,
        }
    }
    Ok(Sequence::from_vec(kept))
}

/// The atoms of a conjunction: False alone where it is one of them, and otherwise those that are not
/// True.
pub(super) fn trimmed_members(
    alloc: Global,
    atoms: &[Atom],
    view: &[Atom],
) -> Result<Sequence<Atom>, AllocError>
    ensures { IfOk result (λ kept. kept ≡ tidied_members (map (resolve view.now) atoms.now)) }
{
    let mut kept = Vec::with_capacity(alloc, atoms.len())?;
    for atom in atoms {
        match resolve(view, *atom) {
            Atom::True => {}
            Atom::False => {
                kept.clear();
                kept.push(Atom::False)?;
                return Ok(Sequence::from_vec(kept));
            }
            Atom::Of(literal) => kept.push(Atom::Of(literal))?,
        }
    }
    Ok(Sequence::from_vec(kept))
}

#[tactic(auto, using(crate::proofs::Stability::stable_false))]
/// The atoms that are not False.
pub(super) fn without_false(
    alloc: Global,
    atoms: &[Atom],
    view: &[Atom],
) -> Result<Sequence<Atom>, AllocError>
    ensures { IfOk result (λ kept. kept ≡ without_false (map (resolve view.now) atoms.now)) }
{
    let mut kept = Vec::with_capacity(alloc, atoms.len())?;
    if are_stable(atoms, view) {
        kept.extend_from_slice(atoms)?;
        return Ok(Sequence::from_vec(kept));
    }
    for atom in atoms {
        match resolve(view, *atom) {
            Atom::True => kept.push(Atom::True)?,
            Atom::False => {}
            Atom::Of(literal) => kept.push(Atom::Of(literal))?,
        }
    }
    Ok(Sequence::from_vec(kept))
}

#[tactic(auto, using(crate::proofs::Stability::stable_constants, crate::proofs::Stability::stable_trues))]
/// The atoms that are no constants, and how many are True.
pub(super) fn only_literals(
    alloc: Global,
    atoms: &[Atom],
    view: &[Atom],
) -> Result<(Sequence<Atom>, usize), AllocError>
    ensures kept { IfOk result (λ kept. kept.0 ≡ without_constants (map (resolve view.now) atoms.now)) }
    ensures trues { IfOk result (λ kept. kept.1 ≡ constant_trues (map (resolve view.now) atoms.now)) }
    ensures range { IfOk result (λ kept. kept.1 ≤ length atoms.now) }
{
    let mut kept = Vec::with_capacity(alloc, atoms.len())?;
    if are_stable(atoms, view) {
        kept.extend_from_slice(atoms)?;
        return Ok((Sequence::from_vec(kept), 0));
    }
    let mut trues: usize = 0;
    for atom in atoms {
        match resolve(view, *atom) {
            Atom::True => trues += 1,
            Atom::False => {}
            Atom::Of(literal) => kept.push(Atom::Of(literal))?,
        }
    }
    Ok((Sequence::from_vec(kept), trues))
}

#[tactic(auto, using(crate::proofs::Counts::turned_rest))]
/// Odd and even, turned so many times.
pub(super) fn turns(times: usize, odd: bool) -> bool
    ensures { result ≡ turned times odd }
{
    (times % 2 == 1) != odd
}
