//! The parts of a parity and of at-most-one.

ghost use Rattle.std.specs.Prelude.{◌≡◌, [], ◌∷◌, ◌++◌, ◌≤◌, length, IfOk};
ghost use Rattle.network_encode.specs.AtomParts.{parity_parts, amo_parts};

use bee_list::Sequence;
use core_forms::Core;
use order_ints::Atom;
use part_base::{Parts, fresh_atom};
use std::alloc::{AllocError, Global};

/// The members of a list, and an atom behind them. It takes memory once.
pub(crate) fn with_last(
    alloc: Global,
    atoms: &[Atom],
    last: Atom,
) -> Result<Sequence<Atom>, AllocError>
    ensures { IfOk result (λ all. all ≡ atoms.now ++ last ∷ []) }
{
    let mut all = Vec::with_capacity(alloc, atoms.len() + 1)?;
    all.extend_from_slice(atoms)?;
    all.push(last)?;
    Ok(Sequence::from_vec(all))
}

/// Parts of two cores, with one fresh variable.
fn two_parts(alloc: Global, first: Core, second: Core) -> Result<Parts, AllocError>
    ensures { IfOk result (λ p. p ≡ record { cores = first ∷ second ∷ []; fresh = 1 }) }
{
    let cores = Sequence::from_vec(vec![in alloc; first, second]?);
    Ok(Parts { cores, fresh: 1 })
}

/// The parts of a parity of two members and more.
pub(crate) fn of_parity(
    alloc: Global,
    atoms: &[Atom],
    odd: bool,
    next: u32,
) -> Result<Parts, AllocError>
    requires { 2 ≤ length atoms.now }
    ensures { IfOk result (λ p. p ≡ parity_parts next atoms.now odd) }
{
    let fresh = fresh_atom(next);
    let (front, back) = atoms.split_at(2);
    let first = Core::Parity(with_last(alloc, front, fresh)?, false);
    let second = Core::Parity(with_last(alloc, back, fresh)?, odd);
    two_parts(alloc, first, second)
}

/// The parts of at-most-one of three members and more.
pub(crate) fn of_amo(alloc: Global, atoms: &[Atom], next: u32) -> Result<Parts, AllocError>
    requires { 3 ≤ length atoms.now }
    ensures { IfOk result (λ p. p ≡ amo_parts next atoms.now) }
{
    let fresh = fresh_atom(next);
    let (front, back) = atoms.split_at(3);
    let first = Core::Amo(with_last(alloc, front, fresh.not())?);
    let second = Core::Amo(with_last(alloc, back, fresh)?);
    two_parts(alloc, first, second)
}
