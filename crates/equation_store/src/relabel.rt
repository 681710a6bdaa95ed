//! Which class gets which label where two become one, and how its members get it.

ghost use Rattle.std.specs.Prelude.{◌≡◌, ◌≢◌, ◌+◌, ◌≤◌, ◌↔◌, length, map, IfSome};
ghost use Rattle.order_ints.specs.Truth.{not_atom};
ghost use Rattle.order_ints.specs.Place.{AtomBelow};
ghost use Rattle.order_ints.specs.View.{resolve};
ghost use Rattle.equation_store.specs.Merge.{signed, replaced, losing_by, size_in, change_by, change_of, change_to};
ghost use Rattle.equation_store.specs.Merge.{merged, IsReplacement};
ghost use Rattle.equation_store.specs.Laws.{IsAtomOf};
ghost use Rattle.equation_store.specs.Store.{IsSized, IsKept};

use crate::classes::{relabel, take_in};
use order_ints::{Atom, Lit, resolve};

/// What a merge found.
#[derive(Clone, Copy, Debug, PartialEq, Eq)]
pub enum Merged {
    /// Two classes became one, or a class became constant.
    Changed,
    /// The atoms were equal already.
    Already,
    /// The atoms are opposite.
    Clash,
}

/// A variable whose class gets a new label.
#[derive(Clone, Copy)]
pub struct Change {
    /// The variable, which is its own label so far.
    pub loser: u32,
    /// Its new label.
    pub label: Atom,
}

/// An atom, or its negation.
fn signed(positive: bool, atom: Atom) -> Atom
    ensures { result ≡ signed positive atom }
{
    if positive { atom } else { atom.not() }
}

/// An atom with a variable replaced by another atom.
pub fn replaced(var: u32, by: Atom, atom: Atom) -> Atom
    ensures { result ≡ replaced var by atom }
{
    match atom {
        Atom::True => Atom::True,
        Atom::False => Atom::False,
        Atom::Of(literal) => {
            if literal.var == var {
                signed(literal.positive, by)
            } else {
                atom
            }
        }
    }
}

/// Of two label variables the one whose class loses: that of the smaller class, of equal ones the greater
/// variable.
fn losing(sizes: &[u32], x: u32, y: u32) -> u32
    requires x { (1 ≤ x) × (x ≤ length sizes.now) }
    requires y { (1 ≤ y) × (y ≤ length sizes.now) }
    ensures { result ≡ losing_by (size_in sizes.now) x y }
{
    let size_of_x = sizes[x as usize - 1];
    let size_of_y = sizes[y as usize - 1];
    if size_of_x < size_of_y {
        x
    } else if size_of_y < size_of_x {
        y
    } else {
        x.max(y)
    }
}

/// The change that makes a literal as true as an atom.
fn change_to(literal: Lit, atom: Atom) -> Change
    ensures { result ≡ change_to literal atom }
{
    Change {
        loser: literal.var,
        label: signed(literal.positive, atom),
    }
}

/// The change that makes two labels one, if one is needed and can. It looks at two sizes.
fn change_of(sizes: &[u32], a: Atom, b: Atom) -> Option<Change>
    requires first { AtomBelow (length sizes.now + 1) a }
    requires second { AtomBelow (length sizes.now + 1) b }
    ensures { result ≡ change_by (size_in sizes.now) a b }
{
    match (a, b) {
        (Atom::Of(l), Atom::Of(m)) => {
            if l.var == m.var {
                None
            } else if losing(sizes, l.var, m.var) == l.var {
                Some(change_to(l, b))
            } else {
                Some(change_to(m, a))
            }
        }
        (Atom::Of(l), constant) => Some(change_to(l, constant)),
        (constant, Atom::Of(m)) => Some(change_to(m, constant)),
        (_, _) => None,
    }
}

/// The change that makes two atoms one, if one is needed and can. It takes constant time.
pub fn change_between(labels: &[Atom], sizes: &[u32], a: Atom, b: Atom) -> Option<Change>
    requires first { IsAtomOf labels.now a }
    requires second { IsAtomOf labels.now b }
    requires sized { IsSized labels.now sizes.now }
    ensures value { result
        ≡ change_of labels.now (resolve labels.now a) (resolve labels.now b) }
    ensures replaces { IfSome result (λ c. IsReplacement labels.now c.loser c.label) }
{
    change_of(sizes, resolve(labels, a), resolve(labels, b))
}

/// Gives the members of the class that loses their new label, and the class that they join these members.
fn apply(labels: &mut [Atom], sizes: &mut [u32], next: &mut [u32], change: Change)
    requires kept { IsKept labels.old sizes.old next.old }
    requires replaces { IsReplacement labels.old change.loser change.label }
    ensures labels { labels.new ≡ map (replaced change.loser change.label) labels.old }
    ensures kept { IsKept labels.new sizes.new next.new }
{
    let size = sizes[change.loser as usize - 1];
    relabel(labels, next, size, change.loser, change.label);
    if let Atom::Of(winner) = change.label {
        take_in(sizes, next, change.loser, winner.var);
    }
}

/// Makes two atoms one.
pub fn merge_labels(
    labels: &mut [Atom],
    sizes: &mut [u32],
    next: &mut [u32],
    a: Atom,
    b: Atom,
) -> Merged
    requires first { IsAtomOf labels.old a }
    requires second { IsAtomOf labels.old b }
    requires kept { IsKept labels.old sizes.old next.old }
    ensures labels { labels.new ≡ merged labels.old a b }
    ensures already { (result ≡ Merged.Already) ↔ (resolve labels.old a ≡ resolve labels.old b) }
    ensures clash { (result ≡ Merged.Clash)
        ↔ (resolve labels.old a ≡ not_atom (resolve labels.old b)) }
    ensures labels_stay { result ≢ Merged.Changed → labels.new ≡ labels.old }
    ensures sizes_stay { result ≢ Merged.Changed → sizes.new ≡ sizes.old }
    ensures next_stay { result ≢ Merged.Changed → next.new ≡ next.old }
    ensures kept { IsKept labels.new sizes.new next.new }
{
    match change_between(labels, sizes, a, b) {
        Some(change) => {
            apply(labels, sizes, next, change);
            Merged::Changed
        }
        None if resolve(labels, a) == resolve(labels, b) => Merged::Already,
        None => Merged::Clash,
    }
}
