//! Walks over what stands in a core: its integers, and the atoms that stand beside them.

ghost use Rattle.std.specs.Prelude.{◌≡◌, [], ◌∷◌, ◌++◌};
ghost use Rattle.std.specs.Iterator.{YieldsFirstRef, item_count};
ghost use Rattle.core_forms.specs.Contents.{ints_of, atoms_of};

use crate::form::Core;
use order_ints::{Atom, OrdInt};
use std::marker::Model;
use std::slice::from_ref;

/// What is left of a walk over lists, one behind another. A contract sees it as the list of the members
/// that are left.
#[derive(Drop)]
pub struct Members<'a, T> {
    first: &'a [T],
    second: &'a [T],
    third: &'a [T],
    fourth: &'a [T],
}

impl<'a, T> Model for Members<'a, T> {
    ghost use Rattle.std.specs.Prelude.{List, ◌++◌};

    ghost Value = { List T };

    ghost view = { λ walk. walk.first.now ++ (walk.second.now ++ (walk.third.now ++ walk.fourth.now)) };
}

impl<'a, T> Members<'a, T> {
    /// The walk over four lists.
    fn of_four(first: &'a [T], second: &'a [T], third: &'a [T], fourth: &'a [T]) -> Members<'a, T>
        ensures { result ≡ first.now ++ (second.now ++ (third.now ++ fourth.now)) }
    {
        Members {
            first,
            second,
            third,
            fourth,
        }
    }

    /// The walk over two lists.
    pub(crate) fn of_two(front: &'a [T], back: &'a [T]) -> Members<'a, T>
        ensures { result ≡ front.now ++ back.now }
    {
        Members::of_four(front, back, &[], &[])
    }

    /// The walk over one list.
    pub(crate) fn of(list: &'a [T]) -> Members<'a, T>
        ensures { result ≡ list.now }
    {
        Members::of_two(list, &[])
    }
}

impl<'a, T> Iterator for Members<'a, T> {
    type Item = &'a T;

    ghost next_gives = { YieldsFirstRef (λ walk. walk) };

    ghost remaining = { item_count (λ walk. walk) };

    fn next(&mut self) -> Option<&'a T> {
        if let Some((member, others)) = self.first.split_first() {
            self.first = others;
            return Some(member);
        }
        if let Some((member, others)) = self.second.split_first() {
            self.second = others;
            return Some(member);
        }
        if let Some((member, others)) = self.third.split_first() {
            self.third = others;
            return Some(member);
        }
        let (member, others) = self.fourth.split_first()?;
        self.fourth = others;
        Some(member)
    }
}

/// The walk over four integers.
fn four_ints<'a>(a: &'a OrdInt, b: &'a OrdInt, c: &'a OrdInt, d: &'a OrdInt) -> Members<'a, OrdInt>
    ensures { result ≡ a.now ∷ b.now ∷ c.now ∷ d.now ∷ [] }
{
    Members::of_four(from_ref(a), from_ref(b), from_ref(c), from_ref(d))
}

/// The walk over three integers.
fn three_ints<'a>(a: &'a OrdInt, b: &'a OrdInt, c: &'a OrdInt) -> Members<'a, OrdInt>
    ensures { result ≡ a.now ∷ b.now ∷ c.now ∷ [] }
{
    Members::of_four(from_ref(a), from_ref(b), from_ref(c), &[])
}

/// The walk over four atoms.
fn four_atoms<'a>(a: &'a Atom, b: &'a Atom, c: &'a Atom, d: &'a Atom) -> Members<'a, Atom>
    ensures { result ≡ a.now ∷ b.now ∷ c.now ∷ d.now ∷ [] }
{
    Members::of_four(from_ref(a), from_ref(b), from_ref(c), from_ref(d))
}

impl Core {
    /// The integers of the core, in the order of its form. The walk takes no memory,
    /// and constant time for each.
    pub fn ints(&self) -> Members<'_, OrdInt>
        ensures { result ≡ ints_of self.now }
    {
        match self {
            Core::Ladder(a) => Members::of(from_ref(a.get())),
            Core::LeqR(_, a, b) => Members::of_two(from_ref(a.get()), from_ref(b.get())),
            Core::EqR(_, a, b) => Members::of_two(from_ref(a.get()), from_ref(b.get())),
            Core::Sum3(a, b, c) => three_ints(a.get(), b.get(), c.get()),
            Core::Count(_, c) => Members::of(from_ref(c.get())),
            Core::Sum(ints, _) => Members::of(ints.as_slice()),
            Core::Max(ints, c) => Members::of_two(ints.as_slice(), from_ref(c.get())),
            Core::AllDiff(ints, _) => Members::of(ints.as_slice()),
            Core::Prod(a, b, c) => three_ints(a.get(), b.get(), c.get()),
            Core::DivMod(a, b, q, r) => four_ints(a.get(), b.get(), q.get(), r.get()),
            Core::Lex(_, _, front, back) => {
                Members::of_two(front.get().as_slice(), back.get().as_slice())
            }
            Core::Clause(_) | Core::Parity(_, _) | Core::Conj(_, _) => Members::of(&[]),
            Core::Comp(_, _, _, _) | Core::Amo(_) => Members::of(&[]),
        }
    }

    /// The atoms of the core that stand as atoms, not in a step of an integer, in the order of its form.
    /// The walk takes no memory, and constant time for each.
    pub fn atoms(&self) -> Members<'_, Atom>
        ensures { result ≡ atoms_of self.now }
    {
        match self {
            Core::Clause(atoms) | Core::Amo(atoms) => Members::of(atoms.as_slice()),
            Core::Parity(atoms, _) | Core::Count(atoms, _) => Members::of(atoms.as_slice()),
            Core::AllDiff(_, conditions) => Members::of(conditions.get().as_slice()),
            Core::Conj(r, atoms) => Members::of_two(from_ref(r), atoms.as_slice()),
            Core::Comp(a, b, hi, lo) => four_atoms(a, b, hi, lo.get()),
            Core::LeqR(r, _, _) | Core::EqR(r, _, _) => Members::of(from_ref(r)),
            Core::Lex(r, _, _, _) => Members::of(from_ref(r)),
            Core::Ladder(_) | Core::Sum3(_, _, _) | Core::Sum(_, _) => Members::of(&[]),
            Core::Max(_, _) | Core::Prod(_, _, _) | Core::DivMod(_, _, _, _) => Members::of(&[]),
        }
    }
}
