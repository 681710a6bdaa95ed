//! Whether the variables of a core are from 1 and below a bound.

ghost use Rattle.std.specs.Prelude.{IsTrue};
ghost use Rattle.order_ints.specs.Place.{AtomBelow, AtomsBelow, StepsBelow};
ghost use Rattle.core_forms.specs.Contents.{ints_of, atoms_of};
ghost use Rattle.core_forms.specs.Place.{IntsBelow, CoreBelow};

use core_forms::Core;
use order_ints::Atom;

/// Whether an atom's variable is.
fn is_below(atom: Atom, n: u32) -> bool
    ensures { IsTrue result → AtomBelow n atom }
{
    match atom {
        Atom::True | Atom::False => true,
        Atom::Of(literal) => 1 <= literal.var && literal.var < n,
    }
}

/// Whether the variables of steps are.
fn are_steps_below(steps: &[(Atom, u128)], n: u32) -> bool
    ensures { IsTrue result → StepsBelow n steps.now }
{
    let Some((first, rest)) = steps.split_first() else {
        return true;
    };
    let first = *first;
    is_below(first.0, n) && are_steps_below(rest, n)
}

/// Whether the variables of a core's atoms are.
fn are_atoms_below(core: &Core, n: u32) -> bool
    ensures { IsTrue result → AtomsBelow n (atoms_of core.now) }
{
    for atom in core.atoms() {
        if !is_below(*atom, n) {
            return false;
        }
    }
    true
}

/// Whether the variables of a core's integers are.
fn are_ints_below(core: &Core, n: u32) -> bool
    ensures { IsTrue result → IntsBelow n (ints_of core.now) }
{
    for a in core.ints() {
        if !are_steps_below(a.steps.as_slice(), n) {
            return false;
        }
    }
    true
}

/// Whether the variables of a core are from 1 and below a bound.
pub fn is_core_below(core: &Core, n: u32) -> bool
    ensures { IsTrue result → CoreBelow n core.now }
{
    are_atoms_below(core, n) && are_ints_below(core, n)
}
