//! The variables of a core.

ghost use Rattle.std.specs.Prelude.{◌≡◌, ◌↔◌, ℕ, ◌++◌, IfOk, OnOk, IsTrue, Contains};
ghost use Rattle.std.specs.List.Sorted.{IsStrictlyIncreasing};
ghost use Rattle.core_forms.specs.Contents.{ints_of, atoms_of};
ghost use Rattle.core_forms.specs.Variables.{atom_vars, atoms_vars, int_vars, ints_vars, core_vars};

use crate::form::Core;
use order_ints::{Atom, OrdInt};
use std::alloc::{AllocError, Global};

/// Puts the variable of an atom behind those of a list.
fn put_atom(vars: &mut Vec<u32>, atom: Atom) -> Result<(), AllocError>
    ensures { OnOk result (vars.new.items ≡ vars.old.items ++ atom_vars atom) }
{
    if let Atom::Of(literal) = atom {
        vars.push(literal.var())?;
    }
    Ok(())
}

/// Puts the variables of an integer behind those of a list.
fn put_int(vars: &mut Vec<u32>, a: &OrdInt) -> Result<(), AllocError>
    ensures { OnOk result (vars.new.items ≡ vars.old.items ++ int_vars a.now) }
{
    for step in a.steps.as_slice() {
        put_atom(vars, step.0)?;
    }
    Ok(())
}

/// Puts the variables of a core's atoms behind those of a list.
fn put_atoms(vars: &mut Vec<u32>, core: &Core) -> Result<(), AllocError>
    ensures { OnOk result (vars.new.items ≡ vars.old.items ++ atoms_vars (atoms_of core.now)) }
{
    for atom in core.atoms() {
        put_atom(vars, *atom)?;
    }
    Ok(())
}

/// Puts the variables of a core's integers behind those of a list.
fn put_ints(vars: &mut Vec<u32>, core: &Core) -> Result<(), AllocError>
    ensures { OnOk result (vars.new.items ≡ vars.old.items ++ ints_vars (ints_of core.now)) }
{
    for a in core.ints() {
        put_int(vars, a)?;
    }
    Ok(())
}

/// Puts the variables of a core's integers behind those of a list, and then those of its atoms: the one atom of a
/// split's rest is a fresh variable, which so stands at the end.
fn put_core(vars: &mut Vec<u32>, core: &Core) -> Result<(), AllocError>
    ensures { OnOk result (vars.new.items
        ≡ (vars.old.items ++ ints_vars (ints_of core.now)) ++ atoms_vars (atoms_of core.now)) }
{
    put_ints(vars, core)?;
    put_atoms(vars, core)
}

/// Whether each number is less than the next one.
fn is_increasing(numbers: &[u32]) -> bool
    ensures { IsTrue result → IsStrictlyIncreasing numbers.now }
{
    for i in 1..numbers.len() {
        if numbers[i - 1] >= numbers[i] {
            return false;
        }
    }
    true
}

/// Puts numbers in ascending order, each once.
fn put_in_order(numbers: &mut Vec<u32>)
    ensures ascending { IsStrictlyIncreasing numbers.new.items }
    ensures same { (v : ℕ) → Contains numbers.new.items v ↔ Contains numbers.old.items v }
{
    if is_increasing(numbers.as_slice()) {
        return;
    }
    numbers.sort_unstable();
    numbers.dedup();
}

/// The variables that occur in a core, in ascending order, each once. It takes the time of one sort of
/// all occurrences, of one pass where they stand in that order, and memory for them.
pub fn variables(alloc: Global, core: &Core) -> Result<Vec<u32>, AllocError>
    ensures ascending { IfOk result (λ vars. IsStrictlyIncreasing vars.items) }
    ensures exact { IfOk result (λ vars. (v : ℕ) → Contains vars.items v ↔ Contains (core_vars core.now) v) }
{
    let mut vars = Vec::new(alloc);
    put_core(&mut vars, core)?;
    put_in_order(&mut vars);
    Ok(vars)
}
