//! Which atoms, integers and cores trimming leaves as they are.

ghost use Rattle.std.specs.Prelude.{◌≡◌, IsTrue, false, map};
ghost use Rattle.order_ints.specs.Truth.{not_atom};
ghost use Rattle.order_ints.specs.Same.{same_atom};
ghost use Rattle.order_ints.specs.View.{resolve};
ghost use Rattle.core_forms.specs.Stable.{IsStable, AreStable, AreStableBehind, IsStableInt, AreStableInts};
ghost use Rattle.core_forms.specs.Stable.{IsStableCore};

use crate::form::Core;
use order_ints::{Atom, OrdInt, label_of, resolve};

/// Whether the view has an atom as it is, and that is no constant.
fn is_stable_atom(view: &[Atom], atom: Atom) -> bool
    ensures { IsTrue result → IsStable view.now atom }
{
    let Atom::Of(literal) = atom else {
        return false;
    };
    match label_of(view, literal.var()) {
        Atom::Of(label) => label.positive() && label.var() == literal.var(),
        _ => false,
    }
}

/// Whether the view has all these atoms as they are, and none is a constant, so that they stay as they are.
pub(super) fn are_stable(atoms: &[Atom], view: &[Atom]) -> bool
    ensures { IsTrue result → AreStable view.now atoms.now }
{
    for atom in atoms {
        if !is_stable_atom(view, *atom) {
            return false;
        }
    }
    true
}

/// Whether the view has an atom as it is, a constant or not.
fn is_resolved(view: &[Atom], atom: Atom) -> bool
    ensures { IsTrue result → resolve view.now atom ≡ atom }
{
    resolve(view, atom) == atom
}

/// Whether the view has all these atoms as they are.
fn are_resolved(atoms: &[Atom], view: &[Atom]) -> bool
    ensures { IsTrue result → map (resolve view.now) atoms.now ≡ atoms.now }
{
    for atom in atoms {
        if !is_resolved(view, *atom) {
            return false;
        }
    }
    true
}

/// Whether a step behind one with another atom is merged with nothing, and follows from nothing.
fn is_stable_behind(view: &[Atom], before: Atom, atom: Atom) -> bool
    ensures { IsTrue result → (same_atom before atom ≡ false) × (same_atom atom (not_atom before) ≡ false)
        × IsStable view.now atom }
{
    before != atom && atom != before.not() && is_stable_atom(view, atom)
}

/// Whether the steps stay as they are. No stable atom is False, so that the first one may be any.
pub(crate) fn is_stable_int(a: &OrdInt, view: &[Atom]) -> bool
    ensures { IsTrue result → IsStableInt view.now a.now }
{
    let steps = a.steps.as_slice();
    let mut before = Atom::False;
    for step in steps {
        if !is_stable_behind(view, before, step.0) {
            return false;
        }
        before = step.0;
    }
    true
}

/// Whether all these integers stay as they are.
fn are_stable_ints(ints: &[OrdInt], view: &[Atom]) -> bool
    ensures { IsTrue result → AreStableInts view.now ints.now }
{
    for a in ints {
        if !is_stable_int(a, view) {
            return false;
        }
    }
    true
}

/// Whether two lists of integers stay as they are.
fn are_stable_words(front: &[OrdInt], back: &[OrdInt], view: &[Atom]) -> bool
    ensures { IsTrue result → AreStableInts view.now front.now × AreStableInts view.now back.now }
{
    are_stable_ints(front, view) && are_stable_ints(back, view)
}

/// Whether a core stays as it is, for the forms that may have long lists.
pub(crate) fn is_stable_form(core: &Core, view: &[Atom]) -> bool
    ensures { IsTrue result → IsStableCore view.now core.now }
{
    match core {
        Core::Parity(atoms, _) => are_stable(atoms.as_slice(), view),
        Core::Amo(atoms) => are_stable(atoms.as_slice(), view),
        Core::Count(atoms, c) => are_stable(atoms.as_slice(), view) && is_stable_int(c.get(), view),
        Core::Sum(ints, _) => are_stable_ints(ints.as_slice(), view),
        Core::AllDiff(ints, conditions) => {
            are_resolved(conditions.get().as_slice(), view)
                && are_stable_ints(ints.as_slice(), view)
        }
        Core::Lex(r, _, front, back) => {
            is_resolved(view, *r)
                && are_stable_words(front.get().as_slice(), back.get().as_slice(), view)
        }
        _ => false,
    }
}
