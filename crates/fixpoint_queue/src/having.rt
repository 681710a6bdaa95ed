//! Whether a core has a variable.

ghost use Rattle.std.specs.Prelude.{◌≡◌, ◌==◌};
ghost use Rattle.std.specs.List.{list_any};
ghost use Rattle.core_forms.specs.Contents.{ints_of, atoms_of};
ghost use Rattle.core_forms.specs.Variables.{atom_vars, int_vars, atoms_vars, ints_vars};
ghost use Rattle.fixpoint_queue.specs.Pairs.{has_var};

use core_forms::Core;
use order_ints::{Atom, OrdInt};

/// Whether an atom is that of a variable.
fn atom_has(atom: Atom, var: u32) -> bool
    ensures { result ≡ list_any (λ w. w == var) (atom_vars atom) }
{
    match atom {
        Atom::Of(literal) => literal.var() == var,
        Atom::True | Atom::False => false,
    }
}

/// Whether a step of an integer has a variable.
fn int_has(a: &OrdInt, var: u32) -> bool
    ensures { result ≡ list_any (λ w. w == var) (int_vars a.now) }
{
    for step in a.steps.as_slice() {
        if atom_has(step.0, var) {
            return true;
        }
    }
    false
}

/// Whether an atom of a core has a variable.
fn atoms_have(core: &Core, var: u32) -> bool
    ensures { result ≡ list_any (λ w. w == var) (atoms_vars (atoms_of core.now)) }
{
    for atom in core.atoms() {
        if atom_has(*atom, var) {
            return true;
        }
    }
    false
}

/// Whether an integer of a core has a variable.
fn ints_have(core: &Core, var: u32) -> bool
    ensures { result ≡ list_any (λ w. w == var) (ints_vars (ints_of core.now)) }
{
    for a in core.ints() {
        if int_has(a, var) {
            return true;
        }
    }
    false
}

/// Whether a core has a variable. It takes no memory, and goes along the core up to the variable.
pub fn has_variable(core: &Core, var: u32) -> bool
    ensures { result ≡ has_var core.now var }
{
    atoms_have(core, var) || ints_have(core, var)
}
