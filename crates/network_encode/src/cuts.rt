//! A parity and at-most-one, split at their front.

ghost use Rattle.std.specs.Prelude.{◌≡◌, ◌≤◌, length, IfOk, IfSome};
ghost use Rattle.part_base.specs.Cuts.{IsCut};
ghost use Rattle.network_encode.specs.AtomCuts.{front_cut, parity_cut, amo_cut};
ghost use Rattle.network_encode.specs.NetworkParts.{parts_of, IsSplit};

use crate::members::with_last;
use bee_list::Sequence;
use core_forms::Core;
use order_ints::Atom;
use part_base::{Coming, Cut, fresh_atom};
use std::alloc::{AllocError, Global};

/// A part before a list, behind which a fresh variable comes.
fn front_cut(alloc: Global, part: Core, next: u32) -> Result<Cut, AllocError>
    ensures { IfOk result (λ cut. cut ≡ front_cut next part) }
{
    let front = Sequence::from_vec(vec![in alloc; part]?);
    Ok(Cut {
        front,
        back: Sequence::from_vec(Vec::new(alloc)),
        coming: Coming::Member(fresh_atom(next)),
        head: Atom::True,
        fresh: 1,
    })
}

/// How a parity of two members and more is split at its front.
fn cut_parity(alloc: Global, atoms: &[Atom], next: u32) -> Result<Cut, AllocError>
    requires { 2 ≤ length atoms.now }
    ensures { IfOk result (λ cut. cut ≡ parity_cut next atoms.now) }
{
    let (front, _) = atoms.split_at(2);
    let members = with_last(alloc, front, fresh_atom(next))?;
    front_cut(alloc, Core::Parity(members, false), next)
}

/// How at-most-one of three members and more is split at its front.
fn cut_amo(alloc: Global, atoms: &[Atom], next: u32) -> Result<Cut, AllocError>
    requires { 3 ≤ length atoms.now }
    ensures { IfOk result (λ cut. cut ≡ amo_cut next atoms.now) }
{
    let (front, _) = atoms.split_at(3);
    let members = with_last(alloc, front, fresh_atom(next).not())?;
    front_cut(alloc, Core::Amo(members), next)
}

/// How a core that is a long list is split at its front, where it is one, a parity or at-most-one: the parts but for
/// the list itself, which stays, and what comes behind it. They are those that `parts` makes. It takes the time and the
/// memory of what leaves and comes, and not of what stays.
pub fn cut(alloc: Global, core: &Core, next_var: u32) -> Result<Option<Cut>, AllocError>
    requires { IsSplit core.now }
    ensures { IfOk result (λ made. IfSome made (λ cut. IsCut next_var core.now (parts_of next_var core.now) cut)) }
{
    match core {
        Core::Parity(atoms, _) => Ok(Some(cut_parity(alloc, atoms.as_slice(), next_var)?)),
        Core::Amo(atoms) => Ok(Some(cut_amo(alloc, atoms.as_slice(), next_var)?)),
        _ => Ok(None),
    }
}
