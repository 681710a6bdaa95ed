//! The parts of an order of words.

ghost use Rattle.std.specs.Prelude.{◌≡◌, ◌+◌, ◌^◌, ◌<◌, [], ◌∷◌, IfOk};
ghost use Rattle.core_forms.specs.declared.form.Core.TheVariants.{Conj};
ghost use Rattle.decompose.specs.LexParts.{empty_order, last_order, before_rest, behind_rest, split_order, lex_parts};

use crate::fresh::{one_part, take_first};
use bee_list::Sequence;
use core_forms::Core;
use order_ints::{Atom, OrdInt};
use part_base::{Parts, fresh_atom};
use std::alloc::{AllocError, Global};

/// An atom is the conjunction of two others.
fn conjunction(alloc: Global, r: Atom, first: Atom, second: Atom) -> Result<Core, AllocError>
    ensures { IfOk result (λ core. core ≡ Conj r (first ∷ second ∷ [])) }
{
    Ok(Core::Conj(r, Sequence::from_vec(vec![in alloc; first, second]?)))
}

/// Two lists without members.
fn empty_part(alloc: Global, r: Atom, strict: bool) -> Result<Core, AllocError>
    ensures { IfOk result (λ core. core ≡ empty_order r strict) }
{
    let member = if strict { r.not() } else { r };
    Ok(Core::Clause(Sequence::from_vec(vec![in alloc; member]?)))
}

/// The last pair.
fn last_part(alloc: Global, r: Atom, strict: bool, a: OrdInt, b: OrdInt) -> Result<Core, AllocError>
    ensures { IfOk result (λ core. core ≡ last_order r strict a b) }
{
    if strict {
        Core::leq_r(alloc, r.not(), b, a)
    } else {
        Core::leq_r(alloc, r, a, b)
    }
}

/// Whether the first of two integers is at most the second, and the other way round.
pub(crate) fn compared(
    alloc: Global,
    a: OrdInt,
    b: OrdInt,
    next_var: u32,
) -> Result<Vec<Core>, AllocError>
    requires { next_var + 4 < 2 ^ 32 }
    ensures { IfOk result (λ cores. cores.items ≡ before_rest next_var a b) }
{
    let first = Core::leq_r(alloc, fresh_atom(next_var), a.clone()?, b.clone()?)?;
    let second = Core::leq_r(alloc, fresh_atom(next_var + 1), b, a)?;
    Ok(vec![in alloc; first, second]?)
}

/// The order fails where the first pair's second member is at most its first and the rests fail; it holds
/// where the first member is at most the second and it does not so fail.
pub(crate) fn decided(alloc: Global, r: Atom, next_var: u32) -> Result<Vec<Core>, AllocError>
    requires { next_var + 4 < 2 ^ 32 }
    ensures { IfOk result (λ cores. cores.items ≡ behind_rest next_var r) }
{
    let (less, greater) = (fresh_atom(next_var), fresh_atom(next_var + 1));
    let (rest, undecided) = (fresh_atom(next_var + 2), fresh_atom(next_var + 3));
    let first = conjunction(alloc, undecided.not(), greater, rest.not())?;
    let second = conjunction(alloc, r, less, undecided)?;
    Ok(vec![in alloc; first, second]?)
}

/// The parts where the first pair is not the last.
fn split_parts(
    alloc: Global,
    r: Atom,
    strict: bool,
    pair: (OrdInt, OrdInt),
    rests: (Vec<OrdInt>, Vec<OrdInt>),
    next_var: u32,
) -> Result<Parts, AllocError>
    requires { next_var + 4 < 2 ^ 32 }
    ensures { IfOk result (λ parts. parts ≡ record {
      cores = split_order next_var r strict pair.0 pair.1 rests.0.items rests.1.items;
      fresh = 4;
    }) }
{
    let (front, back) = (Sequence::from_vec(rests.0), Sequence::from_vec(rests.1));
    let rest = Core::lex(alloc, fresh_atom(next_var + 2), strict, front, back)?;
    let mut behind = decided(alloc, r, next_var)?;
    let mut cores = compared(alloc, pair.0, pair.1, next_var)?;
    cores.push(rest)?;
    cores.append(&mut behind)?;
    Ok(Parts {
        cores: Sequence::from_vec(cores),
        fresh: 4,
    })
}

/// The parts of an order of words. It takes the time to move both lists, and memory for the first pair.
pub(crate) fn lex_parts(
    alloc: Global,
    r: Atom,
    strict: bool,
    front: Vec<OrdInt>,
    back: Vec<OrdInt>,
    next_var: u32,
) -> Result<Parts, AllocError>
    requires { next_var + 4 < 2 ^ 32 }
    ensures { IfOk result (λ parts. parts ≡ lex_parts next_var r strict front.items back.items) }
{
    let (mut front, mut back) = (front, back);
    if front.is_empty() || back.is_empty() {
        let part = empty_part(alloc, r, strict)?;
        return one_part(alloc, part);
    }
    let (a, b) = (take_first(&mut front), take_first(&mut back));
    if front.is_empty() {
        let part = last_part(alloc, r, strict, a, b)?;
        return one_part(alloc, part);
    }
    split_parts(alloc, r, strict, (a, b), (front, back), next_var)
}
