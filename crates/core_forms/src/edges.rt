//! What may change of a long list whose members stay as they are: what stands at its edge.

ghost use Rattle.std.specs.Prelude.{◌≡◌, ◌+◌, ◌^◌, ◌<◌, ◌++◌, ◌∷◌, [], ℕ, ℤ, Bool, true, false, length};
ghost use Rattle.std.specs.Prelude.{IsTrue, IfOk, IfSome, OnOk, OnErr, Contains, Some};
ghost use Rattle.order_ints.specs.Truth.{not_atom};
ghost use Rattle.order_ints.specs.Same.{same_atom};
ghost use Rattle.order_ints.specs.declared.order_int.OrdInt.{OrdInt};
ghost use Rattle.core_forms.specs.declared.form.Core.TheVariants.{Sum};
ghost use Rattle.core_forms.specs.declared.edges.Known.TheVariants.{ButLast};
ghost use Rattle.core_forms.specs.Each.{EachStep};
ghost use Rattle.core_forms.specs.Edges.{settled_core, restored, last_trimmed, with_last, listed_vars};
ghost use Rattle.core_forms.specs.Edges.{IsStableInside, InsideBelow};
ghost use Rattle.core_forms.specs.Edges.{IsKnown, HasOwn, has_var, var_of, greatest_var, greatest_vars};
ghost use Rattle.core_forms.specs.Place.{CoreBelow};
ghost use Rattle.core_forms.specs.Plain.{IsLiteral, is_literal, IsPlainInt};
ghost use Rattle.core_forms.specs.Stable.{AreStableInts, IsStableCore};
ghost use Rattle.core_forms.specs.Totals.{before_last};
ghost use Rattle.core_forms.specs.Variables.{core_vars};
ghost use Rattle.core_forms.specs.WellFormed.{AreSound, IsWellFormed};

use crate::form::Core;
use crate::summands::{Summands, last_of};
use crate::trimming::ints::trimmed_int;
use crate::trimming::stable::{is_stable_form, is_stable_int};
use order_ints::{Atom, OrdInt, resolve};
use std::alloc::{AllocError, Global};

/// What stood at the edge of a core.
#[derive(Drop)]
pub enum Edge {
    /// Nothing that changed.
    Same,
    /// The truth of an order of words.
    Truth(Atom),
    /// The last member of a sum.
    Last(OrdInt),
}

/// What is known of a core.
#[derive(Clone, Copy)]
pub enum Known {
    /// Nothing.
    Nothing,
    /// Its members are plain, but perhaps for the last one of a sum.
    ButLast,
    /// It is plain.
    Plain,
}

/// An atom's variable, counted from 1; 0 is for a constant.
fn var_of(atom: Atom) -> u32
    ensures { result ≡ var_of atom }
{
    match atom {
        Atom::Of(literal) => literal.var(),
        Atom::True | Atom::False => 0,
    }
}

/// The greatest variable of an integer, or another number where that is greater.
fn greatest_var(a: &OrdInt, most: u32) -> u32
    ensures { result ≡ greatest_var most a.now.steps }
{
    let steps = a.steps.as_slice();
    let mut most = most;
    for step in steps {
        most = most.max(var_of(step.0));
    }
    most
}

/// The greatest variable of integers that stay as they are, or another number where that is greater.
fn greatest_stable(ints: &[OrdInt], view: &[Atom], most: u32) -> Option<u32>
    ensures stable { IfSome result (λ all. AreStableInts view.now ints.now) }
    ensures greatest { IfSome result (λ all. all ≡ greatest_vars most ints.now) }
{
    let mut all = most;
    for a in ints {
        if !is_stable_int(a, view) {
            return None;
        }
        all = greatest_var(a, all);
    }
    Some(all)
}

/// The members before the last one.
fn before_last(ints: &[OrdInt]) -> &[OrdInt]
    ensures { result.now ≡ before_last ints.now }
{
    match ints.split_last() {
        Some((_, before)) => before,
        None => ints,
    }
}

/// The greatest variable of a core whose members stay as they are, but for its edge.
pub fn stable_below(core: &Core, view: &[Atom]) -> Option<u32>
    requires below { CoreBelow (length view.now + 1) core.now }
    requires few { length view.now < 2 ^ 32 }
    ensures stable { IfSome result (λ most. IsStableInside view.now core.now) }
    ensures below { IfSome result (λ most. InsideBelow (most + 1) core.now) }
{
    match core {
        Core::Sum(ints, _) => greatest_stable(before_last(ints.as_slice()), view, 0),
        Core::Lex(_, _, front, back) => {
            let most = greatest_stable(front.get().as_slice(), view, 0)?;
            greatest_stable(back.get().as_slice(), view, most)
        }
        _ => if is_stable_form(core, view) {
            Some(view.len() as u32)
        } else {
            None
        },
    }
}

/// Whether an atom is no constant.
pub fn is_literal(atom: Atom) -> bool
    ensures exact { result ≡ is_literal atom }
    ensures literal { IsTrue result → IsLiteral atom }
{
    match atom {
        Atom::Of(_) => true,
        Atom::True | Atom::False => false,
    }
}

/// Whether a step behind one with another atom is merged with nothing, and follows from nothing.
fn is_plain_behind(before: Atom, atom: Atom) -> bool
    ensures { IsTrue result → (same_atom before atom ≡ false) × (same_atom atom (not_atom before) ≡ false)
        × IsLiteral atom }
{
    before != atom && atom != before.not() && is_literal(atom)
}

/// Whether an integer is plain.
fn is_plain_int(a: &OrdInt) -> bool
    ensures { IsTrue result → IsPlainInt a.now }
{
    let steps = a.steps.as_slice();
    let mut before = Atom::False;
    for step in steps {
        if !is_plain_behind(before, step.0) {
            return false;
        }
        before = step.0;
    }
    true
}

/// Whether a view has an atom as it is, or as a constant.
fn has_own(view: &[Atom], atom: Atom) -> bool
    ensures { IsTrue result → HasOwn view.now atom }
{
    let now = resolve(view, atom);
    match now {
        Atom::Of(_) => now == atom,
        Atom::True | Atom::False => true,
    }
}

/// Whether a view has each atom of an integer as it is, or as a constant.
fn has_own_atoms(a: &OrdInt, view: &[Atom]) -> bool
    ensures { IsTrue result → EachStep (HasOwn view.now) a.now.steps }
{
    let steps = a.steps.as_slice();
    for step in steps {
        if !has_own(view, step.0) {
            return false;
        }
    }
    true
}

/// Whether an integer has a variable.
fn has_var(a: &OrdInt, var: u32) -> bool
    ensures { result ≡ has_var var a.now.steps }
{
    let steps = a.steps.as_slice();
    for step in steps {
        if var_of(step.0) == var {
            return true;
        }
    }
    false
}

/// Whether the last member of a sum has no variable as a view has it that the sum has not as it was made.
pub fn has_own_edge(core: &Core, view: &[Atom]) -> bool
    ensures { IsTrue result → (v : ℕ) → Contains (listed_vars (settled_core view.now core.now)) v
        → Contains (core_vars core.now) v }
{
    match core {
        Core::Sum(ints, _) => match last_of(ints.as_slice()) {
            Some(last) => has_own_atoms(last, view),
            None => true,
        },
        _ => true,
    }
}

/// Has another last member, and gives the one that was there.
fn put_last(ints: &mut Summands, a: OrdInt) -> Option<OrdInt>
    ensures put { ints.new ≡ with_last a ints.old }
    ensures gave { (last : OrdInt) → ints.old ≡ before_last ints.old ++ last ∷ [] → result ≡ Some last }
{
    ints.replace_last(a)
}

/// Has the last member as a view has it.
fn settle_last(alloc: Global, ints: &mut Summands, view: &[Atom]) -> Result<Edge, AllocError>
    requires { AreSound ints.old }
    ensures settled { OnOk result (ints.new ≡ last_trimmed view.now ints.old) }
    ensures restored { IfOk result (λ edge. (k : ℤ) → restored edge (Sum ints.new k) ≡ Sum ints.old k) }
    ensures stays { OnErr result (ints.new ≡ ints.old) }
{
    let last = match last_of(ints.as_slice()) {
        Some(last) => last,
        None => return Ok(Edge::Same),
    };
    if is_stable_int(last, view) {
        return Ok(Edge::Same);
    }
    let trimmed = trimmed_int(alloc, last, view)?;
    match put_last(ints, trimmed) {
        Some(last) => Ok(Edge::Last(last)),
        None => Ok(Edge::Same),
    }
}

/// Whether what stands at the edge of a core is stable, so that the core is where it is stable inside.
pub fn is_edge_stable(core: &Core, view: &[Atom]) -> bool
    ensures { IsTrue result → IsStableInside view.now core.now → IsStableCore view.now core.now }
{
    match core {
        Core::Sum(ints, _) => match last_of(ints.as_slice()) {
            Some(last) => is_stable_int(last, view),
            None => true,
        },
        Core::Lex(truth, _, _, _) => resolve(view, *truth) == *truth,
        _ => true,
    }
}

impl Core {
    /// Has the edge as a view has it, and gives what stood there. It takes the time of the edge.
    pub fn settle(&mut self, alloc: Global, view: &[Atom]) -> Result<Edge, AllocError>
        requires { IsWellFormed self.old }
        ensures settled { OnOk result (self.new ≡ settled_core view.now self.old) }
        ensures restored { IfOk result (λ edge. restored edge self.new ≡ self.old) }
        ensures stays { OnErr result (self.new ≡ self.old) }
    {
        match self {
            Core::Sum(ints, _) => {
                let edge = settle_last(alloc, ints, view)?;
                Ok(edge)
            }
            Core::Lex(truth, _, _, _) => {
                let made = *truth;
                let now = resolve(view, made);
                if now == made {
                    return Ok(Edge::Same);
                }
                *truth = now;
                Ok(Edge::Truth(made))
            }
            _ => Ok(Edge::Same),
        }
    }

    /// Whether the edge has a variable; where the core has none, whether the core may have it.
    pub fn has_at_edge(&self, var: u32) -> bool
        ensures { result ≡ false → (n : ℕ)
            → InsideBelow (n + 1) self.now → n < var → Contains (core_vars self.now) var → ⊥ }
    {
        match self {
            Core::Sum(ints, _) => match last_of(ints.as_slice()) {
                Some(last) => has_var(last, var),
                None => false,
            },
            Core::Lex(truth, _, _, _) => var_of(*truth) == var,
            _ => false,
        }
    }

    /// Has an edge as it stood before.
    pub fn unsettle(&mut self, edge: Edge)
        ensures { self.new ≡ restored edge self.old }
    {
        match edge {
            Edge::Same => {}
            Edge::Truth(made) => {
                if let Core::Lex(truth, _, _, _) = self {
                    *truth = made;
                }
            }
            Edge::Last(last) => {
                if let Core::Sum(ints, _) = self {
                    drop(put_last(ints, last));
                }
            }
        }
    }

    /// What is known of a core of which a view had all but the edge as it stands, and plain.
    pub fn known(&self) -> Known
        requires { IsKnown ButLast self.now }
        ensures { IsKnown result self.now }
    {
        match self {
            Core::Sum(ints, _) => match last_of(ints.as_slice()) {
                Some(last) => if is_plain_int(last) {
                    Known::Plain
                } else {
                    Known::ButLast
                },
                None => Known::Plain,
            },
            _ => Known::Plain,
        }
    }
}
